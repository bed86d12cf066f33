// The library's version.
#![tactic(auto)]

ghost use Rattle.std.specs.Prelude.{◌≡◌};
ghost use Rattle.version.specs.Version.{version, version_text};

// As one number, which grows from version to version.
pub fn number() -> u64
    ensures { result ≡ version }
{
    10001
}

// As people write it.
pub fn text() -> [u8; 5]
    ensures { result ≡ version_text }
{
    *b"1.0.1"
}
