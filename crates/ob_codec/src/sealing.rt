ghost use Rattle.std.specs.Prelude.{◌≡◌, ◌≢◌, Err, OnOk};
ghost use Rattle.ob_codec.specs.Reading.{GivesAll};
ghost use Rattle.ob_codec.specs.Sealing.{sealed, unsealed};

use crate::fault::{ReadFault, TextFault};
use sha2::{Digest, Sha256};
use std::alloc::AllocError;

// How many bytes a digest has.
const DIGEST: usize = 32;

/// Puts the digest of a text behind it.
pub fn seal(text: &mut Vec<u8>) -> Result<(), AllocError>
    ensures { OnOk result (text.new.items ≡ sealed text.old.items) }
{
    let digest = Sha256::digest(text.as_slice());
    text.extend_from_slice(&digest)
}

/// The text before its digest: [`TextFault::Short`] where there are fewer bytes than a digest has, and
/// [`TextFault::Digest`] where the digest is another one.
pub fn unseal(bytes: &[u8]) -> Result<&[u8], ReadFault>
    ensures gives { GivesAll (λ text. text.now) result (unsealed bytes.now) }
    ensures known { result ≢ Err ReadFault.Memory }
{
    if bytes.len() < DIGEST {
        return Err(ReadFault::Text(TextFault::Short));
    }
    let (text, digest) = bytes.split_at(bytes.len() - DIGEST);
    let right = Sha256::digest(text);
    if right.as_slice() != digest {
        return Err(ReadFault::Text(TextFault::Digest));
    }
    Ok(text)
}
