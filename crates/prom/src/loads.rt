// A file read into lent system memory.
ghost use Rattle.std.specs.Prelude.{◌≡◌, ◌<◌, [], Some, None};
ghost use Rattle.std.specs.Option.{option_or};
ghost use Rattle.ground_rules.specs.Choice.{pick};
ghost use Rattle.prom_rules.specs.Records.{hex_bytes};
ghost use Rattle.prom.specs.Parts.{record_lent};
ghost use Rattle.ground_rules.specs.Buffers.{buffers};
ghost use Rattle.prom_rules.specs.Load.{store_all, text_file, load_of};
ghost use Rattle.prom.specs.Refusals.{loading_by, judged_of};

use crate::records::{Frames, Record, RecordKind};
use crate::refusals::{LoadRefusal, Reason};

// The line of the first record that reaches beyond memory: one found before, or this one.
fn first_beyond(before: Option<u32>, good: &Record, sys: &[u8], segment: u32) -> Option<u32>
    requires { segment < 65536 }
    ensures { result ≡ option_or before (pick (record_lent (buffers sys.now []) segment (hex_bytes good.now.digits.now)) None (Some good.now.line)) }
{
    if before.is_some() || good.is_lent(sys, segment) {
        before
    } else {
        Some(good.line)
    }
}

// The whole file judged, before a byte is stored: its start address.
fn judge(text: &[u8], sys: &[u8]) -> Result<u32, LoadRefusal>
    ensures { loading_by result (buffers sys.now []) ≡ judged_of (buffers sys.now []) None (text_file text.now) }
{
    let mut segment: u32 = 0;
    let mut start: u32 = 0;
    let mut line: u32 = 0;
    let mut beyond: Option<u32> = None;
    for frame in (Frames {
        rest: text,
        line: 0,
    }) {
        let record = frame?.check()?;
        line = record.line;
        if record.kind == RecordKind::End {
            return match beyond {
                None => Ok(start),
                Some(line) => Err(LoadRefusal {
                    why: Reason::BeyondMemory,
                    line,
                }),
            };
        }
        beyond = first_beyond(beyond, &record, sys, segment);
        segment = record.segment_after(segment);
        start = record.start_after(start);
    }
    Err(LoadRefusal {
        why: Reason::NoEnd,
        line,
    })
}

// The bytes of a good file, stored record by record.
fn store(text: &[u8], sys: &mut [u8])
    requires { (text_file text.now).number ≡ 0 }
    ensures { buffers sys.new [] ≡ store_all (buffers sys.old []) (text_file text.now).stores }
{
    let mut segment: u32 = 0;
    for frame in (Frames {
        rest: text,
        line: 0,
    }) {
        let Ok(frame) = frame else {
            return;
        };
        let record = frame.known();
        if record.kind == RecordKind::End {
            return;
        }
        record.store(sys, segment);
        segment = record.segment_after(segment);
    }
}

// The call: a text read into lent system memory, from which a refused text takes nothing.
pub fn load(text: &[u8], sys: &mut [u8]) -> Result<u32, LoadRefusal>
    ensures { loading_by result (buffers sys.new []) ≡ load_of text.now (buffers sys.old []) }
{
    if !memory::within_limits(sys, b"") {
        return Err(LoadRefusal {
            why: Reason::LongMemory,
            line: 0,
        });
    }
    let start = judge(text, sys)?;
    store(text, sys);
    Ok(start)
}
