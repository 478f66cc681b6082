// The resend plan of a gateway, for the test bench (document 01, "The bench's resend plan"), and two plans joined (document
// 02, item 12).
#![tactic(auto)]

ghost use Rattle.std.specs.Prelude.{◌≡◌, ◌∷◌, ◌++◌, true, ◌+◌, ◌-◌, ◌*◌, ◌<◌, ◌≤◌, length, get_or, Err};
ghost use Rattle.wire.specs.Laying.{at_front};
ghost use Rattle.plan.specs.Plan.{plan_of, planned, refusal, all_marked, longest_list, is_request, last_number, gap_fill, parts_at, paired};
ghost use Rattle.plan.specs.Join.{touch, is_pairs, seam, joined, join_of, joined_in};

use wire::laying::NO_ROOM;

// The most numbers that a list may have.
const LONGEST_LIST: usize = 65536;

// The numbers of a pair.
pub const A_PAIR: usize = 2;

// Document 01's number of a request that has no plan; half a pair where two plans are joined has it too.
const BAD_REQUEST: u32 = 40;

// Why no pairs were written: it is no request, or there is too little room, with the number of pairs needed.
#[derive(Clone, Copy, PartialEq, Eq, Debug)]
pub enum NotPlanned {
    BadRequest,
    NoRoom(usize),
}

impl NotPlanned {
    // Document 01's number.
    pub fn number(self) -> u32
        ensures { result ≡ refusal (Err self) }
    {
        match self {
            NotPlanned::BadRequest => BAD_REQUEST,
            NotPlanned::NoRoom(_) => NO_ROOM,
        }
    }
}

fn all_marked(list: &[u8]) -> bool
    ensures { result ≡ all_marked list.now }
{
    list.iter().all(|mark| *mark <= 1)
}

fn is_request(list: &[u8], s: u32, e: u32) -> bool
    ensures { result ≡ is_request list.now s e }
{
    list.len() <= LONGEST_LIST
        && all_marked(list)
        && 1 <= s
        && s as usize <= list.len()
        && (e == 0 || s <= e)
}

fn last_number(list: &[u8], e: u32) -> usize
    ensures { (result ≡ last_number list.now e) × (result ≤ length list.now) }
{
    if e == 0 {
        list.len()
    } else {
        list.len().min(e as usize)
    }
}

// Number i + 1 stands at index i. A run of session numbers begins there: the index after it.
fn run_end(list: &[u8], i: usize) -> usize
    requires { (i < length list.now) × (get_or list.now i 0 ≡ 1 → ⊥) }
    ensures { (i < result) × (result ≤ length list.now) × (parts_at list.now i ≡ gap_fill (i + 1) (result + 1) ∷ parts_at list.now result) }
{
    for end in i + 1..list.len() {
        if list[end] == 1 {
            return end;
        }
    }
    list.len()
}

// A part's New, and the index after the part. New is 0 for business: a pair is two numbers of the lent list, in the plan and in
// C, and the plan's promise is what these numbers are.
#[derive(Clone, Copy)]
struct Reach {
    new: u32,
    next: usize,
}

// The part whose first number is i + 1. That the list is no longer than `longest_list` is required here and of the three below
// each by itself: a slice that bears the bound would be one more type, made for two loops.
fn part_at(list: &[u8], i: usize) -> Reach
    requires { (i < length list.now) × (length list.now ≤ longest_list) }
    ensures i_lt_next { (i < result.next) × (result.next ≤ length list.now) }
    ensures i_value { parts_at list.now i ≡ gap_fill (i + 1) result.new ∷ parts_at list.now result.next }
{
    if list[i] == 1 {
        return Reach {
            new: 0,
            next: i + 1,
        };
    }
    let end = run_end(list, i);
    Reach {
        new: (end + 1) as u32,
        next: end,
    }
}

// How many parts the numbers from start + 1 on have. Loops and no chains, here and in `write_parts`: each turn's step is the
// part's own length. And two loops, not one that is given a closure: its contract would be as long as both.
fn count_parts(list: &[u8], start: usize) -> usize
    requires { (start ≤ length list.now) × (length list.now ≤ longest_list) }
    ensures { (result ≡ length (parts_at list.now start)) × (result ≤ longest_list) }
{
    let mut i = start;
    let mut count: usize = 0;
    while i < list.len() {
        let reach = part_at(list, i);
        i = reach.next;
        count += 1;
    }
    count
}

// Writes those parts to the front of d.
fn write_parts(list: &[u8], start: usize, d: &mut [u32])
    requires { (start ≤ length list.now) × (length list.now ≤ longest_list) × (2 * length (parts_at list.now start) ≤ length d.old) }
    ensures { d.new ≡ paired (parts_at list.now start) d.old }
{
    let mut i = start;
    let mut at: usize = 0;
    while i < list.len() {
        let reach = part_at(list, i);
        d[at] = (i + 1) as u32;
        d[at + 1] = reach.new;
        at += A_PAIR;
        i = reach.next;
    }
}

// For Start s and End e, each business number once, rising, and each longest run of session numbers as one gap fill: pairs
// (n, 0) and (first, New) at the front of d.
pub fn plan(list: &[u8], s: u32, e: u32, d: &mut [u32]) -> Result<usize, NotPlanned>
    ensures { (result ≡ plan_of list.now s e d.old) × (d.new ≡ planned list.now s e d.old) }
{
    if !is_request(list, s, e) {
        return Err(NotPlanned::BadRequest);
    }
    let last = last_number(list, e);
    let upto = &list[..last];
    let start = (s - 1) as usize;
    let needed = count_parts(upto, start);
    if d.len() < A_PAIR * needed {
        return Err(NotPlanned::NoRoom(needed));
    }
    write_parts(upto, start, d);
    Ok(needed)
}

// Whether a gap fill a to b and one from next to c touch. (They are numbers here: C lends a plan so.)
fn touch(a: u32, b: u32, next: u32, c: u32) -> bool
    ensures { result ≡ touch (gap_fill a b) (gap_fill next c) }
{
    a < b && b == next && next < c
}

// How many of the other's numbers fall away: its first pair, where the one's last touches it.
fn seam(one: &[u32], other: &[u32]) -> usize
    ensures { result ≡ seam one.now other.now }
{
    match (one, other) {
        ([.., a, b], [next, c, ..]) if touch(*a, *b, *next, *c) => A_PAIR,
        _ => 0,
    }
}

// All of the numbers over the first of d. A loop, and not `copy_from_slice`: that is a call of C's `memmove`, which the archive for C
// is not to need from outside.
fn lay(ns: &[u32], d: &mut [u32])
    requires { length ns.now ≤ length d.old }
    ensures { d.new ≡ at_front ns.now d.old }
{
    for i in 0..ns.len() {
        d[i] = ns[i];
    }
}

// The one's numbers over the first of d, and more behind them.
fn lay_both(one: &[u32], more: &[u32], d: &mut [u32])
    requires { length one.now + length more.now ≤ length d.old }
    ensures { d.new ≡ at_front (one.now ++ more.now) d.old }
{
    lay(one, d);
    lay(more, &mut d[one.len()..]);
}

// Writes the joined plan to the front of d: the two gap fills that touch become one, which leads where the other's did.
fn write_joined(one: &[u32], other: &[u32], cut: usize, d: &mut [u32])
    requires { (is_pairs one.now ≡ true) × (is_pairs other.now ≡ true) × (cut ≡ seam one.now other.now) × (length one.now + (length other.now - cut) ≤ length d.old) }
    ensures { d.new ≡ paired (joined one.now other.now) d.old }
{
    lay_both(one, &other[cut..], d);
    if cut == A_PAIR {
        d[one.len() - 1] = other[1];
    }
}

// Two plans as pairs, for s to m and for m + 1 to e: the plan for s to e, at the front of d (document 02, item 12).
pub fn join(one: &[u32], other: &[u32], d: &mut [u32]) -> Result<usize, NotPlanned>
    ensures { (result ≡ join_of one.now other.now d.old) × (d.new ≡ joined_in one.now other.now d.old) }
{
    if one.len() % A_PAIR != 0 {
        return Err(NotPlanned::BadRequest);
    }
    if other.len() % A_PAIR != 0 {
        return Err(NotPlanned::BadRequest);
    }
    let cut = seam(one, other);
    let pairs = (one.len() + (other.len() - cut)) / A_PAIR;
    if d.len() < A_PAIR * pairs {
        return Err(NotPlanned::NoRoom(pairs));
    }
    write_joined(one, other, cut, d);
    Ok(pairs)
}
