// The list of one service while it is made: its rules, the oldest first, and the imbalance after each.
ghost use Rattle.std.specs.Prelude.{◌≡◌, ◌+◌, ◌≤◌, ◌<◌, replicate, slice_set};
ghost use Rattle.numerals.specs.Limits.{most_rules};

use crate::rule::Rule;
use numerals::MOST_RULES;

#[derive(Clone, Copy)]
pub struct RuleList {
    pub rules: [Rule; MOST_RULES],
    pub stairs: [u64; MOST_RULES],
    pub count: usize,
    ghost few: { count ≤ most_rules },
}

// The list of one rule, with the imbalance after it; what stands past the count means nothing.
pub fn of_one(rule: Rule, imbalance: u64) -> RuleList
    ensures { (few : 1 ≤ most_rules)
        × (result ≡ record { rules = replicate most_rules rule; stairs = replicate most_rules imbalance; count = 1; few = few }) }
{
    RuleList {
        rules: [rule; MOST_RULES],
        stairs: [imbalance; MOST_RULES],
        count: 1,
    }
}

impl RuleList {
    // One rule more, with the imbalance after it.
    pub fn push(&mut self, rule: Rule, imbalance: u64)
        requires { self.old.count < most_rules }
        ensures { let n = self.old.count in (few : n + 1 ≤ most_rules) × (self.new ≡ record {
          rules = slice_set self.old.rules n rule;
          stairs = slice_set self.old.stairs n imbalance;
          count = n + 1;
          few = few;
        }) }
    {
        let n = self.count;
        self.rules[n] = rule;
        self.stairs[n] = imbalance;
        self.count = n + 1;
    }

    // Only the oldest rules are left.
    pub fn keep(&mut self, left: usize)
        requires { left ≤ self.old.count }
        ensures { (few : left ≤ most_rules) × (self.new ≡ record {
          rules = self.old.rules;
          stairs = self.old.stairs;
          count = left;
          few = few;
        }) }
    {
        self.count = left;
    }
}
