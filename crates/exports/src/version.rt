// The version of the face.
ghost use Rattle.std.specs.Prelude.{◌≡◌};
ghost use Rattle.exports.specs.Numbers.{version};

// Major times 10,000, minor times 100, and patch: 0.2.0.
pub const VERSION: u32 = 200;

// The version that the archive was made from.
#[unsafe(no_mangle)]
pub extern "C" fn thresholm_version() -> u32
    ensures { result ≡ version }
{
    VERSION
}
