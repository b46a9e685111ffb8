// CC taken apart into its fields and put together of them.
ghost use Rattle.std.specs.Prelude.{◌≡◌, ◌≤◌};
ghost use Rattle.ground_rules.specs.Cc as Cc;
ghost use Rattle.ground_rules.specs.Cc.{bit_worth};

use ground_rules::Fields;

// The fields of a CC.
pub fn split(cc: u16) -> Fields
    ensures { result ≡ Cc.split cc }
{
    let w = cc as u32;
    Fields {
        destinationMoves: words::bit(w, 15),
        sourceMoves: words::bit(w, 14),
        translates: words::bit(w, 13),
        synchronised: words::field(w, 11, 2) as u8,
        sourceIsGB: words::bit(w, 10),
        chained: words::bit(w, 8),
        singleTransfer: words::bit(w, 7),
        externalEnd: words::field(w, 5, 2) as u8,
        countEnd: words::field(w, 3, 2) as u8,
        matchEnd: words::field(w, 0, 3) as u8,
    }
}

// What a flag adds to a CC, at most its bit.
#[tactic(auto, unfolding(ground_rules::specs::Cc::bit_worth))]
fn bit_worth(on: bool, worth: u16) -> u16
    ensures is { result ≡ bit_worth on worth }
    ensures most { result ≤ worth }
{
    if on { worth } else { 0 }
}

// The CC that has the fields, with bit 9 at 0.
#[tactic(auto, unfolding(ground_rules::specs::Cc::joined))]
pub fn joined(f: Fields) -> u16
    ensures { result ≡ Cc.joined f }
{
    bit_worth(f.destinationMoves, 32768)
        + bit_worth(f.sourceMoves, 16384)
        + bit_worth(f.translates, 8192)
        + (f.synchronised % 4) as u16 * 2048
        + bit_worth(f.sourceIsGB, 1024)
        + bit_worth(f.chained, 256)
        + bit_worth(f.singleTransfer, 128)
        + (f.externalEnd % 4) as u16 * 32
        + (f.countEnd % 4) as u16 * 8
        + (f.matchEnd % 8) as u16
}

// A CC without bit 9, its LOCK bit, which is in no field.
pub fn without_lock(cc: u16) -> u16
    ensures { result ≡ Cc.without_lock cc }
{
    cc & 0xFDFF
}
