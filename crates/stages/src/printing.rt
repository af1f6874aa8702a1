// A stage as lines for the switch.
ghost use Rattle.std.specs.Prelude.{◌≡◌, ℕ, ◌^◌, ◌≤◌, ◌<◌, length, get_or};
ghost use Rattle.numerals.specs.Limits.{most_bits, most_capacity};
ghost use Rattle.numerals.specs.Suffix.{Places};
ghost use Rattle.packing.specs.Table.{lines_of};
ghost use Rattle.sheets.specs.Calls as calls;
ghost use Rattle.sheets.specs.Inner.Writing.{Wrote};
ghost use Rattle.sheets.specs.RuleSheet.{lines_text};
ghost use Rattle.stages.specs.Inner.Nodes.{at, starts_to};
ghost use Rattle.stages.specs.Inner.Row.{Served};
ghost use Rattle.stages.specs.Inner.Changes.{stage_in, ChangeOf, text_in};

use crate::change::Change;
use crate::nodes::NODES;
use crate::tree::Tree;
use numerals::{MOST_BITS, MOST_CAPACITY, MOST_SUFFIXES, Refusal};
use sheets::Refused;

// The bytes of the longest line, and of the longest list.
const LINE: usize = 22;

const TEXT: usize = LINE * MOST_CAPACITY;

impl Tree<'_> {
    // The lines of a stage into a text that has room for them; how many bytes they have.
    fn put_lines(
        self,
        service: usize,
        places: &[u16; MOST_SUFFIXES],
        text: &mut [u8; TEXT],
    ) -> usize
        requires of_service { Served self.k service self.holder.now }
        requires all_places { Places most_bits places.now }
        requires few_lines { length (starts_to (at self.holder.now) self.k (2 ^ self.k)) ≤ most_capacity }
        ensures { Wrote text.old text.new 0 result
            (lines_text (lines_of service (starts_to (at self.entry.holder.now) self.entry.k (2 ^ self.entry.k)))) }
    {
        let all: usize = 1 << self.k;
        let mut end = 0;
        let mut p = 0;
        // it jumps from a node to the next, of any size
        while p < all {
            let n = self.height(p);
            let value = (places[p] as usize) >> (MOST_BITS - self.k);
            let backend = self.holder[p] as usize;
            let written = sheets::write_line(text, end, service, self.k - n, value, backend);
            if let Ok(next) = written {
                end = next;
            }
            p += 1 << n;
        }
        end
    }
}

impl Change<'_> {
    // Who has each place in the stage at place p: the new table's backends below it, the old one's from it on.
    fn compose(self, p: usize, stage: &mut [u16; MOST_SUFFIXES])
        ensures { (q : ℕ) → q < 2 ^ self.entry.k → get_or stage.new q 0 ≡ stage_in self.entry p q }
    {
        let all: usize = 1 << self.k;
        for q in 0..all {
            if q < p {
                stage[q] = self.new[q];
            } else {
                stage[q] = self.old[q];
            }
        }
    }

    // The stage at place p as text, into a lent buffer.
    pub fn print_stage(self, service: usize, p: usize, out: &mut [u8]) -> Result<usize, Refused>
        requires of_service { ChangeOf self service }
        requires few_lines { length (starts_to (stage_in self p) self.k (2 ^ self.k)) ≤ most_capacity }
        ensures answer { result ≡ calls.print_text (text_in self.entry service p) (length out.old) }
        ensures buffer { out.new ≡ calls.afterwards (calls.is_value result) out.old (text_in self.entry service p) }
    {
        // what stands there first means nothing; ones are stored by the word
        let mut stage = [1u16; MOST_SUFFIXES];
        self.compose(p, &mut stage);
        let mut held = [1u16; NODES];
        let mut lines = [1u16; NODES];
        let tree = crate::nodes::fill(&stage, self.k, &mut held, &mut lines);
        let places = numerals::all_places();
        let mut text = [0u8; TEXT];
        let end = tree.put_lines(service, &places, &mut text);
        if out.len() < end {
            return Err(Refusal::ShortLoan.into());
        }
        out[..end].copy_from_slice(&text[..end]);
        Ok(end)
    }
}
