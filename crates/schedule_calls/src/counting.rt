// The words of a report: cleared, and added to by what one row comes to; a word that is not lent is left out.
ghost use Rattle.std.specs.Prelude.{◌≡◌, ◌+◌, ◌-◌, ◌*◌, ◌/◌, ◌%◌, ◌<◌, ◌≤◌};
ghost use lib.{Dec.eqb, ListN.set};
ghost use Rattle.ground_rules.specs.Choice.{pick};
ghost use Rattle.schedule_rules.specs.Reports.{no_report, put_over};
ghost use Rattle.schedule_calls.specs.Words.{added_at, added_all, attention_adds, step_adds};

use crate::finding::Found;

// Clears one word.
fn clear_word(report: &mut [u64], at: usize)
    ensures { report.new ≡ set report.old at 0 }
{
    if at < report.len() {
        report[at] = 0;
    }
}

// Clears as many of the sixteen words as are lent. By `fill` or over `iter_mut().take(16)` this is a call of memset, which
// the archive leaves undefined.
pub fn clear(report: &mut [u64])
    ensures { report.new ≡ put_over no_report report.old }
{
    for at in 0..16 {
        clear_word(report, at);
    }
}

// Adds to one word, which goes on at 0 behind its greatest number.
fn add(report: &mut [u64], at: usize, by: u64)
    ensures { report.new ≡ added_at at by report.old }
{
    if at < report.len() {
        report[at] = report[at].wrapping_add(by);
    }
}

// Counts an attention, done or refused.
pub(crate) fn attention(report: &mut [u64], done: bool, channel: u32)
    ensures { report.new ≡ added_all (attention_adds done channel) report.old }
{
    let at = usize::from(!done);
    add(report, at, 1);
    add(report, at + 2, u64::from(channel == 1));
    add(report, at + 9, u64::from(channel == 2));
}

// The digits of this number, sixteen of four bits, are where a report counts a step that was done, by its channel and four
// times its kind.
const PLACES: u64 = 0x7E77_5C55_4B44_2922;

// Where a report counts the step of an answer, which was done.
fn counted_at(answer: u32) -> usize
    ensures is { result ≡ pick (eqb (answer / 256 % 4) 2) 9 2 + (3 * (answer / 1024 % 4) + 1) / 2 }
    ensures low { result < 16 }
{
    ((PLACES >> (answer / 256 % 16 * 4)) % 16) as usize
}

// Counts a step by what it found of each channel and by its answer. Of the bytes that a transfer step touched it read no more
// than all, and stored the others.
pub(crate) fn step(report: &mut [u64], first: Found, second: Found, answer: u32)
    requires { answer % 256 ≡ 0 → answer / 1024 % 4 ≡ 2 → pick (eqb (answer / 256 % 4) 2) second.reads first.reads ≤ answer / 4096 }
    ensures { report.new ≡ added_all (step_adds first.waits second.waits (eqb (answer % 256) 0) (eqb (answer / 256 % 4) 2) (answer / 1024 % 4) (answer / 4096 - pick (eqb (answer / 256 % 4) 2) second.reads first.reads)) report.old }
{
    add(report, 8, u64::from(first.waits));
    add(report, 15, u64::from(second.waits));
    if answer % 256 != 0 {
        add(report, 1, 1);
        return;
    }
    let at = counted_at(answer);
    add(report, 0, 1);
    add(report, at, 1);
    if answer / 1024 % 4 == 2 {
        let stepped = if answer / 256 % 4 == 2 { second } else { first };
        add(report, at + 1, (answer / 4096 - stepped.reads) as u64);
    }
}
