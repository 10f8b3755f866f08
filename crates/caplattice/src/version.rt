// The version. Made by tools/boundary/make from the file VERSION.
ghost use Rattle.std.specs.Prelude.{◌≡◌};
ghost use Rattle.caplattice.specs.Version.{version};

#[unsafe(no_mangle)]
pub extern "C" fn caplattice_version() -> u32
    ensures { result ≡ version 0 2 0 }
{
    2000
}
