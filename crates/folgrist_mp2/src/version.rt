// The version of the library, which include/folgrist_mp2.h repeats.
ghost use Rattle.std.specs.Prelude.{◌≡◌};
ghost use Rattle.c_answers.specs.Version.{version};

const MAJOR: u32 = 1;

const MINOR: u32 = 5;

const PATCH: u32 = 0;

// The three parts as one number: 10000 * major + 100 * minor + patch.
pub fn folgrist_version() -> u32
    ensures { result ≡ version 1 5 0 }
{
    10_000 * MAJOR + 100 * MINOR + PATCH
}
