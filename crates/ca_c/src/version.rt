//! The number of the interface, by which a program finds whether the library serves the header that
//! it was compiled with.
ghost use Rattle.std.specs.Prelude.{◌≡◌};
ghost use Rattle.ca_c.specs.Answers.{version};

/// The version of the interface: 65,536 times the first number, and the second one.
#[unsafe(no_mangle)]
pub extern "C" fn cvz_version() -> u32
    ensures { result ≡ version }
{
    65540
}
