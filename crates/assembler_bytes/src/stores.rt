// Bytes stored one behind another, as many as there is room for.
ghost use Rattle.std.specs.Prelude.{◌≡◌, List, [], ◌∷◌, ◌++◌, ℕ};
ghost use Rattle.ground_rules.specs.Bytes.{low_byte};
ghost use Rattle.ground_rules.specs.Choice.{pick};
ghost use Rattle.listing_rules.specs.Forms.{word_bytes};
ghost use Rattle.assembler_bytes.specs.Laid.{laid_at};

// Stores a number's lowest byte, if there is room, and answers the place behind it.
pub fn put_byte(code: &mut [u8], at: usize, n: u32) -> usize
    ensures { (bs : List ℕ) → laid_at code.new result bs ≡ laid_at code.old at (n ∷ bs) }
{
    if at < code.len() {
        code[at] = (n % 256) as u8;
        return at + 1;
    }
    at
}

// Stores a number as a byte or as a word, low byte first, and answers the place behind it.
pub fn put_value(code: &mut [u8], at: usize, two: bool, n: u32) -> usize
    ensures { (bs : List ℕ) → laid_at code.new result bs ≡ laid_at code.old at (pick two (word_bytes n) (low_byte n ∷ []) ++ bs) }
{
    let next = put_byte(code, at, n);
    if two {
        return put_byte(code, next, n / 256);
    }
    next
}
