// PROM files, listings and assemblies for C.
#![tactic(auto)]

ghost use Rattle.std.specs.Prelude.{[], ◌≡◌, ℕ, ◌+◌, ◌*◌, ◌<◌, length, get_or};
ghost use Rattle.ground_rules.specs.Buffers.{buffers};
ghost use Rattle.prom_rules.specs.Load.{word_for_c, packed_with, load_of};
ghost use Rattle.listing_rules.specs.Listings.{listing_of};
ghost use Rattle.assembly_rules.specs.Assembly.{assemble_of, assembled_into};
ghost use Rattle.assembler.specs.Passes.{assembly_word};

// Reads a PROM file into system memory: number, start address and line in one word.
#[unsafe(no_mangle)]
pub extern "C" fn iop89_load(text: &[u8], sys: &mut [u8]) -> u64
    ensures { packed_with result (buffers sys.new []) ≡ packed_with (word_for_c (load_of text.now (buffers sys.old []))) (load_of text.now (buffers sys.old [])).memory }
{
    match prom::load(text, sys) {
        Ok(start) => start as u64 * 256,
        Err(refused) => refused.why.number() as u64 + refused.line as u64 * 4294967296,
    }
}

// Lists a part of memory: the byte at which it stopped × 4,294,967,296 + the characters written.
#[unsafe(no_mangle)]
pub extern "C" fn iop89_list(code: &[u8], first: u32, text: &mut [u8]) -> u64
    ensures value { result ≡ (listing_of code.now first text.old).stop * 4294967296 + (listing_of code.now first text.old).characters }
    ensures text_after { text.new ≡ (listing_of code.now first text.old).buffer }
    ensures by_index { (i : ℕ) → get_or code.now i 0 < 256 }
{
    let l = lister::listings::list(code, first, text);
    l.stop as u64 * 4294967296 + l.characters as u64
}

// Assembles a text from an address into a buffer: the number + (the line, or the bytes stored where it is done) × 4,294,967,296.
#[unsafe(no_mangle)]
pub extern "C" fn iop89_assemble(text: &[u8], first: u32, code: &mut [u8]) -> u64
    ensures value { result ≡ assembly_word (assemble_of text.now first (length code.old)) }
    ensures code_after { code.new ≡ assembled_into code.old (assemble_of text.now first (length code.old)) }
{
    assembler::assembly::assemble(text, first, code)
}
