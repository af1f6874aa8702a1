// The answers to vectors of the share of a backend.
use crate::shown;
use vectors::header::Header;
use vectors::print;

pub fn count(rt: &impl Print, h: Header, text: &[u8]) {
    match sheets::count_share(text, h.first as usize, h.second as usize) {
        Ok(counted) => {
            print::bytes(rt, b"share");
            print::field(rt, counted.k as u64);
            print::field(rt, counted.share);
        }
        Err(r) => shown::refused(rt, r),
    }
}
