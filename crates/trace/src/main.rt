// Writes the trace of the image on standard input (§9) to standard output, and what stopped its run in words to standard error.
#![tactic(auto)]

ghost use Rattle.std.specs.Prelude.{◌≡◌, IfOk, IfSome, OnOk, take};
ghost use Rattle.std.specs.Io.KnownBytes.{Appends};
ghost use Rattle.ground_rules.specs.Refusals.{answered};
ghost use Rattle.trace_text.specs.Trace.{trace_of, traced_run};

use ground_rules::Refusal;
use std::io;
use std::io::{Read, Write};

// Puts the trace of an image behind what a writer has, and answers how the run ended.
fn show<W: Write>(image: &mut [u8], out: &mut W) -> io::Result<Result<(), Refusal>>
    ensures text { OnOk result (Appends (W.contents out.old) (W.contents out.new) (trace_of image.old)) }
    ensures number { IfOk result (λ end. answered end ≡ (traced_run image.old).number) }
{
    let mut text = [0u8; 32768];
    let run = trace_text::trace(image, &mut text);
    out.write_all(&text[..run.count])?;
    Ok(run.end)
}

// Traces the image that a reader has left, puts the text behind what a writer has, and answers how the run ended.
fn traced<R: Read, W: Write>(mut input: R, out: &mut W) -> io::Result<Result<(), Refusal>>
where
    R: Drop,
    ensures text { OnOk result (IfSome (R.remaining input) (λ left. Appends (W.contents out.old) (W.contents out.new) (trace_of (take 4097 left)))) }
    ensures number { IfOk result (λ end. IfSome (R.remaining input) (λ left. answered end ≡ (traced_run (take 4097 left)).number)) }
{
    let mut image = [0u8; 4097];
    let count = input::read_full(&mut input, &mut image)?;
    show(&mut image[..count], out)
}

// What stopped a run in words (§3.1); none for those that never stop a trace.
fn words_of(refusal: Refusal) -> Option<&'static str> {
    match refusal {
        Refusal::NothingSteps => Some("no channel can run"),
        Refusal::BeyondMemory => Some(
            "refused: 2, a byte of system space to be read or stored lies beyond lent memory",
        ),
        Refusal::NotAnInstruction => Some("refused: 3, the bytes are no instruction"),
        Refusal::ControlNamed => Some(
            "refused: 4, CC is used by another instruction than MOV or MOVI",
        ),
        Refusal::BadTransferMode => Some(
            "refused: 5, a transfer with SYN 11, or a translation with a 16-bit side",
        ),
        Refusal::BadCommand => Some("refused: 6, the command is 010 or 100"),
        Refusal::NotSuspended => Some("refused: 7, a resume, and the channel is not suspended"),
        Refusal::NotRunning => Some("refused: 9, a suspend, and the channel is not running"),
        Refusal::BufferTooLong => Some("refused: 11, the image is longer than 4096 bytes"),
        _ => None,
    }
}

fn main(rt: HostRuntime) -> io::Result<()> {
    let end = traced(rt.stdin(), &mut rt.stdout())?;
    if let Some(words) = end.err().and_then(words_of) {
        // Where standard error cannot be written, nothing is said.
        let _ = eprintln!(rt; "{words}");
    }
    Ok(())
}
