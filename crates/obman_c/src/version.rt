//! Which library this is.
ghost use Rattle.std.specs.Prelude.{◌≡◌};

/// The release, 1.2.0, as one number: two decimal digits each for the second and the third. `OM_VERSION` in the header.
#[unsafe(no_mangle)]
pub extern "C" fn om_version() -> u32
    ensures { result ≡ 10200 }
{
    10_200
}
