// Which version this is.
ghost use Rattle.std.specs.Prelude.{◌≡◌};
ghost use Rattle.version.specs.Version.{version};

// `POWHANIRE_VERSION` of the header that this archive was made with.
#[unsafe(no_mangle)]
pub extern "C" fn powhanire_version() -> u64
    ensures { result ≡ version }
{
    version::number()
}
