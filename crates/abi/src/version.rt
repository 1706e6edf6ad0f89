// The version of the library, for a caller who compares it with the header's.
ghost use Rattle.std.specs.Prelude.{◌≡◌};
ghost use Rattle.abi.specs.Version.{version};

const VERSION: u32 = 200;

#[unsafe(no_mangle)]
pub extern "C" fn rotundaaloe_raw_version() -> u32
    ensures { result ≡ version }
{
    VERSION
}
