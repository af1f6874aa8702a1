// update OLD SHEET SERVICE
ghost use Rattle.std.specs.Prelude.{◌≡◌, true, [], ◌∷◌, ◌++◌, ◌+◌, ◌*◌, ◌≤◌, length, Ok};
ghost use Rattle.numerals.specs.Limits.{most_bits};
ghost use Rattle.numerals.specs.Suffix.{is_suffix, suffix_text};
ghost use Rattle.expansion.specs.FirstMatch.{is_rule};
ghost use Rattle.packing.specs.Table.{lines_of};
ghost use Rattle.sheets.specs.RuleSheet.{line_text, lines_text};
ghost use Rattle.sheets.specs.Inner.Writing.{Wrote};
ghost use Rattle.commands.specs.Said.{outcome, filled};
ghost use Rattle.commands.specs.Update.{update_head, updated_text, update_text, update_says};
ghost use Rattle.commands.specs.Inner.Update.{line_of, rules_in, Rules, suffix_room, head_room, line_room, update_room};

use crate::answer::NoNumber;
use crate::numeral::{MOST_SERVICE, word};
use crate::writing::{put_bytes, put_number, put_pair};
use expansion::{MOST_NUMBERS, PER_RULE, Rule};
use update::Update;

// UPDATE k r n churn; the position after it.
fn put_head(out: &mut [u8], u: Update) -> usize
    requires { head_room ≤ length out.old }
    ensures text { Wrote out.old out.new 0 result (update_head u) }
    ensures end { result ≤ head_room }
{
    let at = put_bytes(out, 0, b"UPDATE ");
    let next = put_pair(out, at, u.k as u64, u.kept as u64, 32);
    put_pair(out, next, u.rules as u64, u.churn as u64, 10)
}

// A suffix and a space behind it; the position after them. As with `put_number`, the one of sheets isn't handed out.
fn put_suffix(out: &mut [u8], at: usize, len: usize, value: usize) -> usize
    requires { (is_suffix most_bits len value ≡ true) × (at + suffix_room ≤ length out.old) }
    ensures text { Wrote out.old out.new at result (suffix_text len value ++ 32 ∷ []) }
    ensures end { result ≤ at + suffix_room }
{
    let end = numerals::write_suffix(out, at, len, value).unwrap();
    out[end] = 32;
    end + 1
}

// A rule line: service suffix backend; the position after it.
fn put_line(out: &mut [u8], at: usize, service: u64, rule: Rule) -> usize
    requires { (is_rule most_bits rule ≡ true) × (at + line_room ≤ length out.old) }
    ensures text { Wrote out.old out.new at result (line_text (line_of service rule)) }
    ensures end { result ≤ at + line_room }
{
    let suffix = put_number(out, at, service, 32);
    let backend = put_suffix(out, suffix, rule.len, rule.value);
    put_number(out, backend, rule.backend as u64, 10)
}

// The lines of n rules, three numbers each; the position after them.
fn put_lines(out: &mut [u8], at: usize, service: u64, rules: &[usize], n: usize) -> usize
    requires { Rules rules.now n × (at + line_room * n ≤ length out.old) }
    ensures { Wrote out.old out.new at result (lines_text (lines_of service (rules_in rules.now n))) }
{
    let mut end = at;
    for i in 0..n {
        let c = PER_RULE * i;
        let rule = Rule {
            len: rules[c],
            value: rules[c + 1],
            backend: rules[c + 2],
        };
        end = put_line(out, end, service, rule);
    }
    end
}

// An update and its rules, three numbers each; the position after their lines.
fn put_updated(out: &mut [u8], u: Update, service: u64, rules: &[usize]) -> usize
    requires { Rules rules.now u.rules × (update_room ≤ length out.old) }
    ensures { Wrote out.old out.new 0 result (updated_text (Ok u) service (rules_in rules.now u.rules)) }
{
    let at = put_head(out, u);
    put_lines(out, at, service, rules, u.rules)
}

// The update and its lines, or a refusal and its sheet.
fn renew(old: &[u8], sheet: &[u8], service: u64, out: &mut [u8]) -> usize
    requires { update_room ≤ length out.old }
    ensures { Wrote out.old out.new 0 result (update_text old.now sheet.now service) }
{
    let mut rules = [0usize; MOST_NUMBERS];
    match update::update_sheets(old, sheet, service as usize, &mut rules) {
        Ok(u) => put_updated(out, u, service, &rules),
        Err(r) => crate::writing::put_refused_of(out, r),
    }
}

// New weights for a service of a rule sheet, by a percentage sheet: the rules that are kept and added, and what they move.
pub fn update(
    old: &[u8],
    sheet: &[u8],
    service: &[u8],
    out: &mut [u8; crate::LINES_ROOM],
) -> Result<usize, NoNumber>
    ensures answer { result ≡ outcome (update_says old.now sheet.now service.now) }
    ensures buffer { out.new ≡ filled (update_says old.now sheet.now service.now) out.old }
{
    let n = word(service, MOST_SERVICE, 3)?;
    Ok(renew(old, sheet, n, out))
}
