// The row of places at which a change is cut, and whether one of its stages is crowded.
ghost use Rattle.std.specs.Prelude.{◌≡◌, ℕ, ◌^◌, ◌≤◌, ◌<◌, length, take, get_or};
ghost use Rattle.std.proofs.lemmas.List.Edits.{sets};
ghost use Rattle.numerals.specs.Limits.{most_suffixes};
ghost use Rattle.stages.specs.Inner.Changes.{row_in, crowded_in, judged_in, RowStands};

use crate::change::Change;
use crate::nodes::{NODES, fill};
use numerals::{MOST_CAPACITY, MOST_SUFFIXES, Refusal};

impl Change<'_> {
    // The places into a listing that has room for them, the last of them 2^k; how many there are. A place that differs ends the
    // stage before it where that one has moved as many as it may.
    pub fn cut(self, limit: usize, row: &mut [usize]) -> usize
        requires { (1 ≤ limit) × (length (row_in self limit) ≤ length row.old) }
        ensures long { result ≡ length (row_in self.entry limit) }
        ensures row { row.new ≡ sets row.old 0 (row_in self.entry limit) }
    {
        let all: usize = 1 << self.k;
        let mut n = 0;
        let mut moved = 0;
        for p in 0..all {
            if self.old[p] != self.new[p] {
                if limit < moved + 1 {
                    row[n] = p;
                    n += 1;
                    moved = 0;
                }
                moved += 1;
            }
        }
        row[n] = all;
        n + 1
    }

    // Whether one of the stages at n places has more lines than the capacity.
    fn is_crowded(self, capacity: usize, row: &[usize; MOST_SUFFIXES], n: usize) -> bool
        requires { (n ≤ most_suffixes) × ((i : ℕ) → i < n → (0 < get_or row.now i 0) × (get_or row.now i 0 ≤ 2 ^ self.k)) }
        ensures { result ≡ crowded_in self.entry capacity (take n row.now) }
    {
        // what stands there first means nothing; ones are stored by the word
        let mut old_held = [1u16; NODES];
        let mut old_lines = [1u16; NODES];
        let old = fill(self.old, self.k, &mut old_held, &mut old_lines);
        let mut new_held = [1u16; NODES];
        let mut new_lines = [1u16; NODES];
        let new = fill(self.new, self.k, &mut new_held, &mut new_lines);
        for p in &row[..n] {
            let lines = old.count_lines(new, *p);
            if capacity < lines as usize {
                return true;
            }
        }
        false
    }

    // The row of a change into a listing, where the limit, the capacity and the number of a stage are in their limits and no
    // stage is crowded.
    pub fn judge(
        self,
        limit: usize,
        capacity: usize,
        number: usize,
        row: &mut [usize; MOST_SUFFIXES],
    ) -> Result<usize, Refusal>
        ensures answer { result ≡ judged_in self.entry limit capacity number }
        ensures row { RowStands self.entry limit result row.new }
    {
        if !(1..=MOST_SUFFIXES).contains(&limit) {
            return Err(Refusal::BadField);
        }
        if !(1..=MOST_CAPACITY).contains(&capacity) {
            return Err(Refusal::BadField);
        }
        let n = self.cut(limit, row);
        if !(1..=n).contains(&number) {
            return Err(Refusal::BadField);
        }
        if self.is_crowded(capacity, row, n) {
            return Err(Refusal::Crowded);
        }
        Ok(n)
    }
}
