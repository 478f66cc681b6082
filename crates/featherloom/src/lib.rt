//! The functions of include/featherloom.h, under their C names. Each hands on to `capi` or below, and promises the same.
#![tactic(auto)]

ghost use Rattle.std.specs.Prelude.{◌≡◌};
ghost use Rattle.crc.specs.Crc.{crc32c};
ghost use Rattle.capi.specs.Reading.{read_c, comp_id_c, map_c, body_c, ask_c, text_c, ListsC};
ghost use Rattle.capi.specs.Sessions.{fresh_c, saved_c, connect_c, drop_c, step_c, SendsC, LogsOnC};
ghost use Rattle.capi.specs.Version.{version};
ghost use Rattle.capi.specs.Planning.{PlansC, JoinsC};
ghost use Rattle.capi.specs.Steps.{TakesC};
ghost use Rattle.capi.specs.Lines.{fresh_line_c, saved_line_c, connect_line_c, drop_line_c, step_line_c, TakesLineC, tick_c, next_tick_c};
ghost use Rattle.capi.specs.Writing.{WritesC, SpellsC};

use capi::shape::{
    CConnected, CDone, CHeader, CLine, CLineConnected, CLineDone, CLineMade, CLineStepped, CListed,
    CMade, CNextTick, CPart, CPlanned, CReading, CSend, CSession, CStepped, CTicked, CValue,
    CWritten,
};
use wire::map::MAP_BYTES;

#[unsafe(no_mangle)]
pub extern "C" fn featherloom_version() -> u32
    ensures { result ≡ version }
{
    capi::version::version_c()
}

#[unsafe(no_mangle)]
pub extern "C" fn featherloom_read(bytes: &[u8]) -> CReading
    ensures { result ≡ read_c bytes.now }
{
    capi::read::read_c(bytes)
}

#[unsafe(no_mangle)]
pub extern "C" fn featherloom_comp_id(bytes: &[u8]) -> CPart
    ensures { result ≡ comp_id_c bytes.now }
{
    capi::read::comp_id_c(bytes)
}

#[unsafe(no_mangle)]
pub extern "C" fn featherloom_map(bytes: &[u8]) -> CPart
    ensures { result ≡ map_c bytes.now }
{
    capi::read::map_c(bytes)
}

#[unsafe(no_mangle)]
pub extern "C" fn featherloom_body(bytes: &[u8]) -> CPart
    ensures { result ≡ body_c bytes.now }
{
    capi::read::body_c(bytes)
}

#[unsafe(no_mangle)]
pub extern "C" fn featherloom_ask(bytes: &[u8], position: usize) -> CValue
    ensures { result ≡ ask_c bytes.now position }
{
    capi::read::ask_c(bytes, position)
}

#[unsafe(no_mangle)]
pub extern "C" fn featherloom_text(bytes: &[u8], position: usize) -> CPart
    ensures { result ≡ text_c bytes.now position }
{
    capi::read::text_c(bytes, position)
}

#[unsafe(no_mangle)]
pub extern "C" fn featherloom_fields(bytes: &[u8], numbers: &mut [u64]) -> CListed
    ensures { ListsC bytes.now numbers.old result numbers.new }
{
    capi::read::fields_c(bytes, numbers)
}

#[unsafe(no_mangle)]
pub extern "C" fn featherloom_crc32c(bytes: &[u8]) -> u32
    ensures { result ≡ crc32c bytes.now }
{
    crc::crc32c(bytes)
}

#[unsafe(no_mangle)]
pub extern "C" fn featherloom_write(
    buffer: &mut [u8],
    header: CHeader,
    comp: &[u8],
    map: &[u8; MAP_BYTES],
    body: &[u8],
) -> CWritten
    ensures { WritesC header comp.now map.now body.now buffer.old result buffer.new }
{
    capi::write::write_c(buffer, header, comp, map, body)
}

#[unsafe(no_mangle)]
pub extern "C" fn featherloom_decimal_text(buffer: &mut [u8], decimal: i64) -> CWritten
    ensures { SpellsC decimal buffer.old result buffer.new }
{
    capi::write::decimal_text_c(buffer, decimal)
}

#[unsafe(no_mangle)]
pub extern "C" fn featherloom_fresh(comp: &[u8]) -> CMade
    ensures { result ≡ fresh_c comp.now }
{
    capi::sessions::fresh_c(comp)
}

#[unsafe(no_mangle)]
pub extern "C" fn featherloom_saved(comp: &[u8], expected: u32, own: u32) -> CMade
    ensures { result ≡ saved_c comp.now expected own }
{
    capi::sessions::saved_c(comp, expected, own)
}

#[unsafe(no_mangle)]
pub extern "C" fn featherloom_connect(session: CSession, password: &[u8]) -> CConnected
    ensures { result ≡ connect_c session password.now }
{
    capi::sessions::connect_c(session, password)
}

#[unsafe(no_mangle)]
pub extern "C" fn featherloom_drop(session: CSession) -> CMade
    ensures { result ≡ drop_c session }
{
    capi::sessions::drop_c(session)
}

#[unsafe(no_mangle)]
pub extern "C" fn featherloom_step(session: CSession, bytes: &[u8]) -> CStepped
    ensures { result ≡ step_c session bytes.now }
{
    capi::sessions::step_c(session, bytes)
}

#[unsafe(no_mangle)]
pub extern "C" fn featherloom_steps_flat(
    session: CSession,
    bytes: &[u8],
    rows: &mut [u32],
    sends: &mut [u32],
) -> CDone
    ensures { TakesC session bytes.now rows.old sends.old result rows.new sends.new }
{
    capi::sessions::steps_c(session, bytes, rows, sends)
}

#[unsafe(no_mangle)]
pub extern "C" fn featherloom_put(buffer: &mut [u8], session: CSession, send: CSend) -> CWritten
    ensures { SendsC session send buffer.old result buffer.new }
{
    capi::sessions::send_c(buffer, session, send)
}

#[unsafe(no_mangle)]
pub extern "C" fn featherloom_put_logon(
    buffer: &mut [u8],
    session: CSession,
    password: &[u8],
) -> CWritten
    ensures { LogsOnC session password.now buffer.old result buffer.new }
{
    capi::sessions::logon_c(buffer, session, password)
}

#[unsafe(no_mangle)]
pub extern "C" fn featherloom_line_fresh(comp: &[u8], interval: u32) -> CLineMade
    ensures { result ≡ fresh_line_c comp.now interval }
{
    capi::lines::line_fresh_c(comp, interval)
}

#[unsafe(no_mangle)]
pub extern "C" fn featherloom_line_saved(
    comp: &[u8],
    expected: u32,
    own: u32,
    interval: u32,
) -> CLineMade
    ensures { result ≡ saved_line_c comp.now expected own interval }
{
    capi::lines::line_saved_c(comp, expected, own, interval)
}

#[unsafe(no_mangle)]
pub extern "C" fn featherloom_line_connect(
    line: CLine,
    time: u64,
    password: &[u8],
) -> CLineConnected
    ensures { result ≡ connect_line_c line time password.now }
{
    capi::lines::line_connect_c(line, time, password)
}

#[unsafe(no_mangle)]
pub extern "C" fn featherloom_line_drop(line: CLine, time: u64) -> CLineMade
    ensures { result ≡ drop_line_c line time }
{
    capi::lines::line_drop_c(line, time)
}

#[unsafe(no_mangle)]
pub extern "C" fn featherloom_line_step(line: CLine, time: u64, bytes: &[u8]) -> CLineStepped
    ensures { result ≡ step_line_c line time bytes.now }
{
    capi::lines::line_step_c(line, time, bytes)
}

#[unsafe(no_mangle)]
pub extern "C" fn featherloom_line_steps_flat(
    line: CLine,
    time: u64,
    bytes: &[u8],
    rows: &mut [u32],
    sends: &mut [u32],
) -> CLineDone
    ensures { TakesLineC line time bytes.now rows.old sends.old result rows.new sends.new }
{
    capi::lines::line_steps_c(line, time, bytes, rows, sends)
}

#[unsafe(no_mangle)]
pub extern "C" fn featherloom_line_tick(line: CLine, time: u64) -> CTicked
    ensures { result ≡ tick_c line time }
{
    capi::lines::line_tick_c(line, time)
}

#[unsafe(no_mangle)]
pub extern "C" fn featherloom_line_next_tick(line: CLine) -> CNextTick
    ensures { result ≡ next_tick_c line }
{
    capi::lines::line_next_tick_c(line)
}

#[unsafe(no_mangle)]
pub extern "C" fn featherloom_plan(
    list: &[u8],
    start: u32,
    end: u32,
    numbers: &mut [u32],
) -> CPlanned
    ensures { PlansC list.now start end numbers.old result numbers.new }
{
    capi::planning::plan_c(list, start, end, numbers)
}

#[unsafe(no_mangle)]
pub extern "C" fn featherloom_join(one: &[u32], other: &[u32], numbers: &mut [u32]) -> CPlanned
    ensures { JoinsC one.now other.now numbers.old result numbers.new }
{
    capi::planning::join_c(one, other, numbers)
}
