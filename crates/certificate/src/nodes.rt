// The conditions on mates, parents and duals alone: MATE, PARENT, DUAL, FREE.
ghost use Rattle.std.specs.Prelude.{◌≡◌, not, ◌||◌, [], ◌+◌, ◌*◌, ◌<◌, ◌≤◌, nat_abs, ◌+ℤ◌, length, get_or, pos};
ghost use Rattle.std.specs.List.{list_all};
ghost use Rattle.laws.specs.Integers.{is_zero, lesser, least as least_of};
ghost use Rattle.laws.specs.Lists.{all, range};
ghost use Rattle.numbers.specs.Near.{Near as AllNear};
ghost use Rattle.matching.specs.Graph.{is_missing};
ghost use Rattle.matching.specs.Certificate.{offset as offset_of};
ghost use Rattle.matching.specs.Tests.{climb_ends, parent_test, dual_test, free_test};
ghost use Rattle.certificate.specs.Chains.{Named};
ghost use Rattle.certificate.specs.Lists.{Near, end_node, parent_named, dual_fits, bare, certificate_of};

use numbers::{End, MISSING, Node};

const MAX_DUAL: i64 = 4503599627370496;

// Functions of n and of one list or two. What is asked of a list grows from test to test (any list, one that names groups, one in which
// climbing ends), so a struct would be one for each.

// ---- 11 MATE

// The node that end p is at. Over two lists as they are lent: `Edges` has the same of its own.
pub fn node_at(first: &[u16], second: &[u16], p: End) -> Node
    requires { (length second.now ≡ length first.now) × (p < 2 * length first.now) }
    ensures { result ≡ end_node first.now second.now p }
{
    let e = p.edge().number() as usize;
    if p.number() % 2 == 1 {
        Node::of(second[e])
    } else {
        Node::of(first[e])
    }
}

// ---- 12 PARENT

// A parent is missing or a group.
fn parent_named(n: u16, p: u16) -> bool
    requires { n ≤ 64 }
    ensures { result ≡ parent_named n p }
{
    if p == MISSING {
        return true;
    }
    if p < n {
        return false;
    }
    p < 2 * n
}

fn parents_named(n: u16, parents: &[u16]) -> bool
    requires { n ≤ 64 }
    ensures { result ≡ list_all (parent_named n) parents.now }
{
    parents.iter().all(|&p| parent_named(n, p))
}

// Climbing from i reaches a missing parent in at most n moves.
fn climb_ends(n: u16, parents: &[u16], i: u16) -> bool
    requires { (n ≤ 64) × Named n parents.now × (i < 2 * n) }
    ensures { result ≡ climb_ends parents.now n i }
{
    let mut at = i;
    for k in 0..n {
        let p = parents[at as usize];
        if p == MISSING {
            return true;
        }
        at = p;
    }
    parents[at as usize] == MISSING
}

fn climbs_end(n: u16, parents: &[u16]) -> bool
    requires { (n ≤ 64) × Named n parents.now }
    ensures { result ≡ all (climb_ends parents.now n) (range 0 (2 * n)) }
{
    (0..2 * n).all(|i| climb_ends(n, parents, i))
}

pub(crate) fn parents_pass(n: u16, parents: &[u16]) -> bool
    requires { (n ≤ 64) × (length parents.now ≡ 2 * n) }
    ensures { result ≡ all (parent_test (bare n) parents.now) (range 0 (2 * n)) }
{
    if !parents_named(n, parents) {
        return false;
    }
    climbs_end(n, parents)
}

// ---- 13 DUAL

// No sum is formed here, so a dual may be any number.
fn dual_fits(n: u16, flag: bool, i: u16, d: i64) -> bool
    ensures { result ≡ dual_fits n flag i d }
{
    if MAX_DUAL < d {
        return false;
    }
    if d < -MAX_DUAL {
        return false;
    }
    if n <= i {
        return 0 <= d;
    }
    if flag {
        return true;
    }
    0 <= d
}

fn dual_test(n: u16, flag: bool, duals: &[i64], i: u16) -> bool
    requires { (n ≤ 64) × (length duals.now ≡ 2 * n) × (i < 2 * n) }
    ensures { result ≡ dual_test (bare n) flag duals.now i }
{
    dual_fits(n, flag, i, duals[i as usize])
}

pub(crate) fn duals_pass(n: u16, flag: bool, duals: &[i64]) -> bool
    requires { (n ≤ 64) × (length duals.now ≡ 2 * n) }
    ensures { result ≡ all (dual_test (bare n) flag duals.now) (range 0 (2 * n)) }
{
    (0..2 * n).all(|i| dual_test(n, flag, duals, i))
}

// ---- 16 FREE

#[tactic(auto, unfolding(laws::specs::Integers::lesser))]
fn lesser(a: i64, b: i64) -> i64
    ensures { result ≡ lesser a b }
{
    a.min(b)
}

// The least of a list; 0 if it is empty. The search's least is of a list that is not empty, and else a fault.
#[tactic(auto, unfolding(laws::specs::Integers::least))]
fn least(duals: &[i64]) -> i64
    requires { AllNear 4503599627370496 duals.now }
    ensures { result ≡ least_of duals.now }
{
    if duals.is_empty() {
        return 0;
    }
    let mut low = duals[0];
    for &d in duals {
        low = lesser(low, d);
    }
    low
}

// What FREE adds to a node's dual.
fn offset(n: u16, flag: bool, duals: &[i64]) -> i64
    requires { (n ≤ 64) × Near n duals.now }
    ensures { (result ≡ offset_of (bare n) flag duals.now) × (nat_abs result ≤ 4503599627370496) }
{
    if !flag {
        return 0;
    }
    let up = -least(&duals[..n as usize]);
    up.max(0)
}

// A node that has a mate, or whose dual and the offset o are together 0.
fn free_fits(mate: u16, dual: i64, o: i64) -> bool
    requires { (nat_abs dual ≤ 4503599627370496) × (nat_abs o ≤ 4503599627370496) }
    ensures { result ≡ (not (is_missing mate) || is_zero (dual +ℤ o)) }
{
    mate != MISSING || dual + o == 0
}

fn free_test(mates: &[u16], duals: &[i64], o: i64, v: u16) -> bool
    requires { (length mates.now ≤ 64) × Near (length mates.now) duals.now × (nat_abs o ≤ 4503599627370496) × (v < length mates.now) }
    ensures { result ≡ (not (is_missing (get_or mates.now v 0)) || is_zero (get_or duals.now v (pos 0) +ℤ o)) }
{
    free_fits(mates[v as usize], duals[v as usize], o)
}

pub(crate) fn free_pass(n: u16, flag: bool, mates: &[u16], duals: &[i64]) -> bool
    requires { (n ≤ 64) × (length mates.now ≡ n) × Near n duals.now }
    ensures { result ≡ all (free_test (bare n) flag (certificate_of mates.now duals.now [])) (range 0 n) }
{
    let o = offset(n, flag, duals);
    (0..n).all(|v| free_test(mates, duals, o, v))
}
