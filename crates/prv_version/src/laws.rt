//! Laws of the definitions, each the contract of a function that does nothing.

ghost use Rattle.std.specs.Prelude.{◌≡◌, ℕ, List};
ghost use Rattle.prv_names.specs.declared.version.Version.{Version};
ghost use Rattle.prv_version.specs.Versions.{GivesVersion, IsFileRefused};
ghost use Rattle.prv_version.specs.declared.error.VersionError.{VersionError};

/// A file gives one version at most.
pub fn one_version()
    ensures { (file : List ℕ) (some other : Version) → GivesVersion file some → GivesVersion file other → some ≡ other }
{}

/// A file that gives a version isn't refused.
pub fn version_or_refusal()
    ensures { (file : List ℕ) (version : Version) (why : VersionError) → GivesVersion file version → IsFileRefused file why → ⊥ }
{}

/// A file is refused for one reason, at one place.
pub fn one_reason()
    ensures { (file : List ℕ) (why how : VersionError) → IsFileRefused file why → IsFileRefused file how → why ≡ how }
{}
