// What an instruction stores: the lowest bytes of a value at a place.
ghost use Rattle.std.specs.Prelude.{◌≡◌, ◌≢◌};
ghost use Rattle.ground_rules.specs.Choice.{pick};
ghost use Rattle.ground_rules.specs.Buffers.{lent};
ghost use Rattle.ground_rules.specs.Places.{all_touchable};
ghost use Rattle.ground_rules.specs.Values.{pointer};
ghost use Rattle.instruction_rules.specs.Changes.{change, places_of, changed, stored_value};

// The three bytes in which a pointer is stored, as one number.
pub fn stored_value(address: u32, tag: bool) -> u32
    ensures { result ≡ stored_value (pointer address tag) }
{
    let low = words::stored_low(address) as u32;
    let middle = words::stored_middle(address) as u32;
    let high = words::stored_high(address, tag) as u32;
    low + middle * 256 + high * 65536
}

// The lowest `count` bytes of a value, one at least and at most three, stored at a place.
fn store(count: u32, tag: bool, address: u32, v: u32, sys: &mut [u8], io: &mut [u8])
    requires { count ≢ 0 }
    ensures { lent sys.new io.new ≡ changed (lent sys.old io.old) (change count (pointer address tag) v) }
{
    memory::store_byte(sys, io, tag, address, (v % 256) as u8);
    if count == 1 {
        return;
    }
    memory::store_byte(
        sys,
        io,
        tag,
        words::sum20(address, 1),
        (v / 256 % 256) as u8,
    );
    if count == 2 {
        return;
    }
    memory::store_byte(
        sys,
        io,
        tag,
        words::sum20(address, 2),
        (v / 65536 % 256) as u8,
    );
}

// The lowest `count` bytes of a value, at most three, stored at a place where each may be touched, else nothing; and whether
// they may. Most instructions store nothing, so that is asked first.
pub fn made(count: u32, tag: bool, address: u32, v: u32, sys: &mut [u8], io: &mut [u8]) -> bool
    ensures told { result ≡ all_touchable (lent sys.old io.old) (places_of (change count (pointer address tag) v)) }
    ensures stored { lent sys.new io.new ≡ pick result (changed (lent sys.old io.old) (change count (pointer address tag) v)) (lent sys.old io.old) }
{
    if count == 0 {
        return true;
    }
    if !memory::span_touchable(sys, io, tag, address, count) {
        return false;
    }
    store(count, tag, address, v, sys, io);
    true
}
