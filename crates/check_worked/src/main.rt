// P11 and P12 of document 01, the check on certificates of P8 and P9, and a certificate with a dual of 2^63 - 1: number and place of each.
#![tactic(auto)]

use std::io;
use std::io::Write;

// Document 01's mark. The program knows the call alone, not the library's numbers.
const MISSING: u16 = 65535;

// The check on the junction of P8 and P9: 0-1 of weight 5, 1-2 of 11, 2-3 of 5. A write that fails is passed over.
fn judge<W: Write>(out: &mut W, flag: bool, mates: &[u16], duals: &[i64]) {
    let first = [0, 1, 2];
    let second = [1, 2, 3];
    let weight = [5, 11, 5];
    let parents = [MISSING; 8];
    let v = certificate::check(4, &first, &second, &weight, flag, mates, duals, &parents);
    let _ = writeln!(out, "{} {}", v.number(), v.place());
}

fn main(rt: HostRuntime) {
    let mut out = io::writer(&rt);
    let one_pair = [MISSING, 3, 2, MISSING];
    let zero_and_eleven = [0, 11, 11, 0, 0, 0, 0, 0];
    let two_pairs = [1, 0, 5, 4];
    let below_zero = [-1, 11, 11, -1, 0, 0, 0, 0];
    let far = [i64::MAX, 11, 11, 0, 0, 0, 0, 0];
    judge(&mut out, false, &one_pair, &zero_and_eleven);
    judge(&mut out, true, &one_pair, &zero_and_eleven);
    judge(&mut out, true, &two_pairs, &below_zero);
    judge(&mut out, false, &two_pairs, &below_zero);
    judge(&mut out, false, &one_pair, &far);
}
