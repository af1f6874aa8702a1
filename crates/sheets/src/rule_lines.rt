// The lines of a table in numbers, four of each.
ghost use Rattle.std.specs.Prelude.{◌≡◌, ℕ, true, ◌+◌, ◌*◌, ◌-◌, ◌<◌, ◌≤◌, length, drop};
ghost use Rattle.std.proofs.lemmas.List.Edits.{sets};
ghost use Rattle.numerals.specs.Limits.{most_bits, most_capacity};
ghost use Rattle.expansion.specs.FirstMatch.{first_match};
ghost use Rattle.expansion.specs.OldList.{numbers_of};
ghost use Rattle.packing.specs.Count.{own_rules};
ghost use Rattle.sheets.specs.RuleSheet.{count_of, is_line};
ghost use Rattle.sheets.specs.Inner.TableNumbers.{line_at, lines_in, RuleLines};
ghost use Rattle.sheets.specs.Inner.TableReader.{Found};

use expansion::PER_RULE;

// A line by its numbers.
#[derive(Clone, Copy)]
pub struct RuleLine {
    pub service: usize,
    pub len: usize,
    pub value: usize,
    pub backend: usize,
}

// The first n lines of a table, in numbers that may go on behind them.
#[derive(Clone, Copy)]
pub struct TableLines<'a> {
    pub cells: &'a [usize],
    pub n: usize,
    ghost ruled: { RuleLines cells.now n },
}

// A table in memory: k, the total and the lines. Each of its services has a first match for suffix 0.
#[derive(Clone, Copy)]
pub struct HeldTable<'a> {
    pub k: usize,
    pub total: u64,
    pub lines: TableLines<'a>,
    ghost few_bits: { k ≤ most_bits },
    ghost few: { lines.n ≤ most_capacity },
    ghost found: { (service : ℕ) → Found (lines_in lines.cells.now lines.n) service },
}

impl RuleLine {
    ghost use Rattle.sheets.specs.Inner.TableReader.{line_of};

    // Line i from 0 of numbers, whatever they are.
    pub fn at(cells: &[usize], i: usize) -> Self
        requires { 4 * i + 3 < length cells.now }
        ensures { line_of result ≡ line_at cells.now i }
    {
        let at = 4 * i;
        RuleLine {
            service: cells[at],
            len: cells[at + 1],
            value: cells[at + 2],
            backend: cells[at + 3],
        }
    }
}

impl<'a> TableLines<'a> {
    ghost use Rattle.sheets.specs.Inner.TableReader.{line_of};
    ghost use Rattle.sheets.specs.Inner.HeldTable.{lines_of};

    // Line i from 0.
    pub fn line(&self, i: usize) -> RuleLine
        requires { i < self.now.n }
        ensures same { line_of result ≡ line_at self.now.cells.now i }
        ensures formed { is_line most_bits (line_of result) ≡ true }
    {
        RuleLine::at(self.cells, i)
    }

    // The id of the backend of the first line of a service that matches an address; 0 where there is none, as `first_match` of the
    // definitions says.
    pub fn first_backend(&self, service: usize, address: usize) -> usize
        ensures { result ≡ first_match (own_rules service (lines_of self.now)) address }
    {
        for i in 0..self.n {
            let line = self.line(i);
            if line.service == service {
                let all: usize = 1 << line.len;
                if address % all == line.value {
                    return line.backend;
                }
            }
        }
        0
    }

    // How many lines stand before the first of a service; all of them where it has none.
    fn lines_before(&self, service: usize) -> usize
        ensures few { result ≤ self.now.n }
        ensures same { own_rules service (lines_in (drop (4 * result) self.now.cells.now) (self.now.n - result))
            ≡ own_rules service (lines_of self.now) }
    {
        for i in 0..self.n {
            if self.line(i).service == service {
                return i;
            }
        }
        self.n
    }

    // The lines from the first of a service on.
    pub fn from_service(&self, service: usize) -> TableLines<'a>
        ensures { own_rules service (lines_of result) ≡ own_rules service (lines_of self.now) }
    {
        let before = self.lines_before(service);
        let at = 4 * before;
        TableLines {
            cells: &self.cells[at..],
            n: self.n - before,
        }
    }

    // How many lines a service has.
    pub fn count_of(&self, service: usize) -> usize
        ensures few { result ≤ self.now.n }
        ensures count { result ≡ count_of service (lines_of self.now) }
    {
        let mut count = 0;
        for i in 0..self.n {
            if self.line(i).service == service {
                count += 1;
            }
        }
        count
    }

    // The rules of a service, into a lent buffer that is long enough.
    pub fn store_own(&self, service: usize, rules: &mut [usize])
        requires { 3 * count_of service (lines_of self.now) ≤ length rules.old }
        ensures { rules.new ≡ sets rules.old 0 (numbers_of (own_rules service (lines_of self.now))) }
    {
        let mut at = 0;
        for i in 0..self.n {
            let rule = self.line(i);
            if rule.service == service {
                rules[at] = rule.len;
                rules[at + 1] = rule.value;
                rules[at + 2] = rule.backend;
                at += PER_RULE;
            }
        }
    }
}
