// The interface's version, which a program compares with the header that it was compiled with.
ghost use Rattle.std.specs.Prelude.{◌≡◌};
ghost use Rattle.capi.specs.Version.{version};

// 4.2.0.
const VERSION: u32 = 40200;

pub fn version_c() -> u32
    ensures { result ≡ version }
{
    VERSION
}
