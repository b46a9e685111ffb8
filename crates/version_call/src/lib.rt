// The version of the run's archive, in an object of its own: the object of the runs stands in both archives, this one in
// that archive alone.
#![tactic(auto)]

ghost use Rattle.std.specs.Prelude.{◌≡◌};

// The version of the archive: IOP89_VERSION of the header that it was made with.
#[unsafe(no_mangle)]
pub extern "C" fn iop89_version() -> u32
    ensures { result ≡ 200 }
{
    200
}
