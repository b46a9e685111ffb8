// The call.
ghost use Rattle.std.specs.Prelude.{◌≡◌, ◌+◌, ◌*◌, length};
ghost use Rattle.assembly_rules.specs.Assembly.{assemble_of, assembled_into};
ghost use Rattle.assembler.specs.Passes.{capped_count, assembly_word};

use crate::passes;
use assembler_text::labels::Labels;

// A number and a count in one word, as C's interface has them; the count no more than four bytes hold.
fn word(number: u32, count: usize) -> u64
    ensures { result ≡ number + capped_count count * 4294967296 }
{
    let capped = u32::try_from(count).unwrap_or(u32::MAX);
    u64::from(number) + u64::from(capped) * 4294967296
}

// The number of the line behind so many.
fn line_behind(before: usize) -> usize
    ensures { capped_count result ≡ capped_count (before + 1) }
{
    before.saturating_add(1)
}

// A text assembled with room for 64 labels.
fn assemble_with(
    text: &[u8],
    first: u32,
    places: &mut [usize],
    addresses: &mut [u32],
    code: &mut [u8],
) -> u64
    requires { (length places.old ≡ 64) × (length addresses.old ≡ 64) }
    ensures value { result ≡ assembly_word (assemble_of text.now first (length code.old)) }
    ensures code_after { code.new ≡ assembled_into code.old (assemble_of text.now first (length code.old)) }
{
    let count = passes::labels(text, first, places, addresses);
    let labels = Labels {
        places: &places[..count],
        addresses: &addresses[..count],
    };
    match passes::check(text, first, &labels, code.len()) {
        Ok(()) => word(0, passes::store(text, first, &labels, code)),
        Err(refused) => word(refused.refusal.number(), line_behind(refused.line)),
    }
}

// A text assembled from an address into a buffer: its number, and its line or the bytes stored.
pub fn assemble(text: &[u8], first: u32, code: &mut [u8]) -> u64
    ensures value { result ≡ assembly_word (assemble_of text.now first (length code.old)) }
    ensures code_after { code.new ≡ assembled_into code.old (assemble_of text.now first (length code.old)) }
{
    // No zeros: they would be a call of memset, which no archive brings.
    let mut places: [usize; 64] = [1; 64];
    let mut addresses: [u32; 64] = [1; 64];
    assemble_with(text, first, &mut places, &mut addresses, code)
}
