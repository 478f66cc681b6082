// The checks that reader and writer share, in their order: 5 to 10.
ghost use Rattle.std.specs.Prelude.{◌≡◌, ℕ, List};
ghost use Rattle.tables.specs.Tables.{row_of};
ghost use Rattle.message.specs.Vet.{good_comp_id, good_header, refusal_of, vet_fields, vet};

use crate::frame::{COMP_ID_BYTES, Header};
use crate::refusal::Refusal;
use fields::check::Reason;
use fields::sets::{lowest_missing, lowest_unknown};
use fields::walk::{BadAt, Walked, walk};
use tables::table::is_type;
use wire::text::{Allowed, takes_text};

// A Comp ID is a text of 1 to 11 characters.
#[tactic(auto, unfolding(crate::specs::Vet::good_comp_id))]
pub fn is_comp_id(comp: &[u8]) -> bool
    ensures { result ≡ good_comp_id comp.now }
{
    1 <= comp.len() && takes_text(Allowed::Ascii, COMP_ID_BYTES, comp)
}

// 6, where `named` says whether the Comp ID is good.
#[tactic(auto, unfolding(crate::specs::Vet::good_header))]
fn is_header(header: Header, named: bool) -> bool
    ensures { (comp : List ℕ) → named ≡ good_comp_id comp → result ≡ good_header header comp }
{
    1 <= header.number && header.possdup <= 1 && header.possresend <= 1 && named
}

// The refusal of the first bad field, by its reason.
#[tactic(auto, unfolding(crate::specs::Vet::refusal_of))]
fn bad_at(bad: BadAt) -> Refusal
    ensures { result ≡ refusal_of bad.reason bad.position }
{
    match bad.reason {
        Reason::Field => Refusal::BadField(bad.position),
    }
}

// The map and the body of a message of a known type: 7 to 10. Gives how many bytes the body's plain form has.
#[tactic(auto, unfolding(crate::specs::Vet::vet_fields, crate::specs::Vet::vet_sets, crate::specs::Vet::vet_place, crate::specs::Vet::vet_walk))]
fn vet_fields(messagetype: u8, map: &[u8], body: &[u8]) -> Result<usize, Refusal>
    ensures { result ≡ vet_fields (row_of messagetype) map.now body.now }
{
    if let Some(unknown) = lowest_unknown(messagetype, map) {
        return Err(Refusal::UnknownPosition(unknown));
    }
    if let Some(missing) = lowest_missing(messagetype, map) {
        return Err(Refusal::MissingField(missing));
    }
    let Walked { left, plain } = walk(messagetype, map, body).map_err(bad_at)?;
    if left == 0 {
        Ok(plain)
    } else {
        Err(Refusal::LeftOver(left))
    }
}

// The checks of a message with any Comp ID of which `named` says whether it is good: the reader has seen its characters.
#[tactic(auto, unfolding(crate::specs::Vet::vet))]
pub(crate) fn vet_named(
    header: Header,
    named: bool,
    map: &[u8],
    body: &[u8],
) -> Result<usize, Refusal>
    ensures { (comp : List ℕ) → named ≡ good_comp_id comp → result ≡ vet header comp map.now body.now }
{
    let messagetype = header.messagetype;
    if !is_type(messagetype) {
        return Err(Refusal::UnknownType);
    }
    if !is_header(header, named) {
        return Err(Refusal::BadHeader);
    }
    vet_fields(messagetype, map, body)
}

// The checks of a message: how many bytes its body's plain form has, or the refusal.
pub fn vet(header: Header, comp: &[u8], map: &[u8], body: &[u8]) -> Result<usize, Refusal>
    ensures { result ≡ vet header comp.now map.now body.now }
{
    vet_named(header, is_comp_id(comp), map, body)
}
