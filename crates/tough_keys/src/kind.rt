ghost use Rattle.std.specs.Prelude.{◌≡◌};
ghost use Rattle.tough_keys.specs.Key.{kind_of, kind_name, scheme_name};

/// The kinds of keys.
#[derive(Clone, Copy, Debug, Drop, PartialEq, Eq)]
pub enum Kind {
    Rsa,
    Ed25519,
    Ecdsa,
    EcdsaOld,
}

impl Kind {
    /// The kind whose `keytype` this is.
    pub fn of(name: &str) -> Option<Kind>
        ensures { result ≡ kind_of name.now }
    {
        if name == "rsa" {
            Some(Kind::Rsa)
        } else if name == "ed25519" {
            Some(Kind::Ed25519)
        } else if name == "ecdsa" {
            Some(Kind::Ecdsa)
        } else if name == "ecdsa-sha2-nistp256" {
            Some(Kind::EcdsaOld)
        } else {
            None
        }
    }

    /// The `keytype` of the kind (TUF specification 4.2).
    pub fn name(self) -> &'static str
        ensures { result.now ≡ kind_name self }
    {
        match self {
            Kind::Rsa => "rsa",
            Kind::Ed25519 => "ed25519",
            Kind::Ecdsa => "ecdsa",
            Kind::EcdsaOld => "ecdsa-sha2-nistp256",
        }
    }

    /// The `scheme` of the kind.
    pub fn scheme(self) -> &'static str
        ensures { result.now ≡ scheme_name self }
    {
        match self {
            Kind::Rsa => "rsassa-pss-sha256",
            Kind::Ed25519 => "ed25519",
            Kind::Ecdsa => "ecdsa-sha2-nistp256",
            Kind::EcdsaOld => "ecdsa-sha2-nistp256",
        }
    }
}
