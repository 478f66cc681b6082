// The parts of a message in plain form, laid into a buffer that has room for them.
ghost use Rattle.std.specs.Prelude.{◌≡◌, true, ◌-◌, ◌≤◌, length, take};
ghost use Rattle.tables.specs.Longest.{frame_bytes};
ghost use Rattle.tables.specs.Tables.{row_of};
ghost use Rattle.wire.specs.declared.text.Allowed.TheVariants.{Ascii};
ghost use Rattle.wire.specs.Laying.{laid};
ghost use Rattle.wire.specs.Map.{map_bytes};
ghost use Rattle.wire.specs.Text.{takes};
ghost use Rattle.fields.specs.Cut.{head_positions};
ghost use Rattle.fields.specs.Plain.{plain_fields};
ghost use Rattle.fields.specs.Words.{ClearFrom};
ghost use Rattle.message.specs.Frame.{comp_id_at, body_at, comp_id_bytes, sum_bytes};
ghost use Rattle.writer.specs.Plain.{head_bytes, sealed};
ghost use Rattle.writer.specs.Put.{value_bytes};

use crc::crc32c;
use fields::check::{Shape, shape_at};
use fields::cut::{LATER, behind, extent_at, head};
use fields::plain::{copy_decimal, copy_number, copy_other};
use message::frame::{
    COMP_ID_AT, COMP_ID_BYTES, Header, LENGTH_AT, MAP_AT, NUMBER_AT, POSS_DUP_AT, POSS_RESEND_AT,
    START_AT, STX, SUM_BYTES, TYPE_AT,
};
use wire::laying::put_bytes;
use wire::number::{put_u8, put_u16, put_u32, put_u64, read_eight};
use wire::text::{Allowed, copy_fixed, put_fixed};

// All fields of a body, each in plain form behind the last, where there is room for them and no position behind the map's head is set. The
// positions still to come are a word, and the body's bytes from the next field on are `rest`.
pub(crate) fn put_fields(d: &mut [u8], messagetype: u8, map: &[u8], body: &[u8])
    requires in_bounds { (8 ≤ length map.now) × ClearFrom head_positions map.now }
    requires body_in_bounds { length (plain_fields (row_of messagetype) map.now body.now) ≤ length d.old }
    ensures { d.new ≡ laid (plain_fields (row_of messagetype) map.now body.now) d.old }
{
    let mut at: usize = 0;
    let mut rest = body;
    let mut left = head(map);
    while left != 0 {
        let p = u64::leading_zeros(left) as usize;
        match shape_at(messagetype, p) {
            Shape::Number(width) => {
                let laid = copy_number(&mut d[at..], width, rest);
                at += laid.unwrap_or(0);
                let next = behind(rest, width);
                rest = next;
            }
            Shape::Decimal => {
                let laid = copy_decimal(&mut d[at..], rest);
                at += laid.unwrap_or(0);
                let next = behind(rest, 8);
                rest = next;
            }
            Shape::Fixed(allowed, width) => {
                let laid = copy_fixed(&mut d[at..], allowed, width, rest);
                at += laid.unwrap_or(0);
                let next = behind(rest, width);
                rest = next;
            }
            Shape::Other => {
                let laid = copy_other(&mut d[at..], messagetype, p, rest);
                at += laid.unwrap_or(0);
                let next = behind(rest, extent_at(messagetype, p, rest));
                rest = next;
            }
        }
        left = left & (LATER >> p);
    }
}

// Start, Length, Type, Sequence number, PossDup, PossResend.
fn put_values(d: &mut [u8], n: u16, header: Header)
    requires { comp_id_at ≤ length d.old }
    ensures { d.new ≡ laid (value_bytes n header) d.old }
{
    let _ = put_u8(d, STX);
    let _ = put_u16(&mut d[LENGTH_AT..], n);
    let _ = put_u8(&mut d[TYPE_AT..], header.messagetype);
    let _ = put_u32(&mut d[NUMBER_AT..], header.number);
    let _ = put_u8(&mut d[POSS_DUP_AT..], header.possdup);
    let _ = put_u8(&mut d[POSS_RESEND_AT..], header.possresend);
}

// The bytes before the fields of a message of n bytes.
pub(crate) fn put_head(d: &mut [u8], n: u16, header: Header, comp: &[u8], map: &[u8])
    requires { (body_at ≤ length d.old) × (takes Ascii comp_id_bytes comp.now ≡ true) × (length map.now ≡ map_bytes) }
    ensures { d.new ≡ laid (head_bytes n header comp.now map.now) d.old }
{
    put_values(d, n, header);
    let _ = put_fixed(&mut d[COMP_ID_AT..], Allowed::Ascii, COMP_ID_BYTES, comp);
    let _ = put_bytes(&mut d[MAP_AT..], map);
}

// The checksum over a message's bytes before it, behind them.
pub(crate) fn put_sum(d: &mut [u8], n: usize)
    requires { (frame_bytes ≤ n) × (n ≤ length d.old) }
    ensures { d.new ≡ laid (sealed (take (n - sum_bytes) d.old)) d.old }
{
    let end = n - SUM_BYTES;
    let sum = crc32c(&d[START_AT..end]);
    let _ = put_u32(&mut d[end..], sum);
}
