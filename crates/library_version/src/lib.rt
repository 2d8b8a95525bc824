// The version of the library, as one number.
#![tactic(auto)]

ghost use Rattle.std.specs.Prelude.{◌≡◌};
ghost use Rattle.library_version.specs.Version.{version};

// Version 0.4.0: major, minor and patch, eight bits each from the lowest up.
const VERSION: u32 = 0x000400;

// The version.
pub fn number() -> u32
    ensures { result ≡ version }
{
    VERSION
}
