//! The version, and how the program was built.

/// What `hek --version` prints after the name: the version, and a line on the build. tools/build writes the commit, the toolchain
/// and whether the program was proved over that line, in as many bytes.
pub const VERSION: &str = "0.5.0\ncommit, toolchain and proofs: not said by this build";
