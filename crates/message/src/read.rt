// The reader.
ghost use Rattle.std.specs.Prelude.{◌≡◌};
ghost use Rattle.message.specs.Read.{read_of, read_whole, comp_id_of, map_of, body_of};

use crate::frame::{Header, body_in, check_frame, comp_id_in, header_in, map_in};
use crate::refusal::Refusal;
use crate::vet::vet_named;

// A good message's header values and length.
#[derive(Clone, Copy, PartialEq, Eq, Debug)]
pub struct Reading {
    pub header: Header,
    pub length: usize,
}

// A message whose frame is right: one walk. A Comp ID that is read is a text, and bad only where it is empty.
#[tactic(auto, unfolding(crate::specs::Read::read_whole, crate::specs::Read::read_vetted))]
fn read_whole(s: &[u8], length: usize) -> Result<Reading, Refusal>
    ensures { result ≡ read_whole s.now length }
{
    let header = header_in(s);
    let named = 1 <= comp_id_in(s).len();
    vet_named(header, named, map_in(s), body_in(length, s))?;
    Ok(Reading { header, length })
}

// The message at the front of s, refused in the order 2, 1, 3, 1, 4, 5, 6, 7, 8, 9, 10: one pass for the checksum, and
// one walk.
#[tactic(auto, unfolding(crate::specs::Read::read_of, crate::specs::Read::read_framed))]
pub fn read(s: &[u8]) -> Result<Reading, Refusal>
    ensures { result ≡ read_of s.now }
{
    let length = check_frame(s)?;
    read_whole(s, length)
}

// The Comp ID's characters.
#[tactic(auto, unfolding(crate::specs::Read::comp_id_of, crate::specs::Read::part_by))]
pub fn comp_id(s: &[u8]) -> &[u8]
    ensures { result.now ≡ comp_id_of s.now }
{
    read(s).map_or(&s[..0], |_| comp_id_in(s))
}

// The presence map's 32 bytes.
#[tactic(auto, unfolding(crate::specs::Read::map_of, crate::specs::Read::part_by))]
pub fn map(s: &[u8]) -> &[u8]
    ensures { result.now ≡ map_of s.now }
{
    read(s).map_or(&s[..0], |_| map_in(s))
}

// The message body.
#[tactic(auto, unfolding(crate::specs::Read::body_of, crate::specs::Read::part_by))]
pub fn body(s: &[u8]) -> &[u8]
    ensures { result.now ≡ body_of s.now }
{
    read(s).map_or(&s[..0], |message| body_in(message.length, s))
}
