// For C. Made by tools/boundary/make from crates/caplattice/src/version.rt.
ghost use Rattle.std.specs.Prelude.{◌≡◌};
ghost use Rattle.caplattice.specs.Version.{version};

#[unsafe(no_mangle)]
pub extern "C" fn caplattice_version() -> u32
    ensures { result ≡ version 0 2 0 }
{
    caplattice::version::caplattice_version()
}
