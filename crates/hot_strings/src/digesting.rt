//! Digests of a text, in hex.
ghost use Rattle.std.specs.Prelude.{◌≡◌, ◌↔◌, IsTrue, IfOk, IfErr, Some, string_bytes};
ghost use Rattle.hot_strings.specs.Answers.{digest_of};
ghost use Rattle.hot_strings.specs.Digest.{IsDigestName, IsDigest};

use crate::StringFault;
use heat_value::Text;
use md5::{Digest as Md5Digest, Md5};
use sha1::Sha1;
use sha2::{Digest, Sha224, Sha256, Sha384, Sha512};
use std::alloc::{AllocError, Global};

/// Whether there is a digest of that name.
pub fn is_digest_name(name: &Text) -> bool
    ensures { IsTrue result ↔ IsDigestName name.now }
{
    matches!(
        name.as_str(),
        "md5" | "sha1" | "sha224" | "sha256" | "sha384" | "sha512"
    )
}

/// The digest of that name of the text's bytes, in lower-case hex.
#[tactic(auto, using(crate::proofs::AnswerLemmas::for_digest))]
pub fn digest(alloc: Global, name: &Text, text: &Text) -> Result<Text, StringFault>
    requires { IsDigestName name.now }
    ensures ok { IfOk result (IsDigest name.now text.now) }
    ensures answer { IfOk result (λ t. digest_of name.now text.now ≡ Some t) }
    ensures err { IfErr result (λ e. e ≡ StringFault.Memory) }
{
    let hex = hex_digest(alloc, name.as_str(), text.as_str().as_bytes())?;
    Ok(Text::from_string(hex))
}

// The digest of this name, as text.
fn hex_digest(alloc: Global, name: &str, bytes: &[u8]) -> Result<String, AllocError>
    requires { IsDigestName name.now }
    ensures { IfOk result (λ s. IsDigest name.now bytes.now (string_bytes s)) }
{
    match name {
        "md5" => hex::encode(alloc, Md5::digest(bytes)),
        "sha1" => hex::encode(alloc, Sha1::digest(bytes)),
        "sha224" => hex::encode(alloc, Sha224::digest(bytes)),
        "sha256" => hex::encode(alloc, Sha256::digest(bytes)),
        "sha384" => hex::encode(alloc, Sha384::digest(bytes)),
        _ => hex::encode(alloc, Sha512::digest(bytes)),
    }
}
