// The version of the library, which include/folgrist_mp2.h repeats.
ghost use Rattle.std.specs.Prelude.{◌≡◌};
ghost use Rattle.c_answers.specs.Version.{version};

// The three parts as one number: 10000 * major + 100 * minor + patch.
#[unsafe(no_mangle)]
pub extern "C" fn folgrist_version() -> u32
    ensures { result ≡ version 1 5 0 }
{
    folgrist_mp2::version::folgrist_version()
}
