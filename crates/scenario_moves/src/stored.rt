//! Values, as a client is told to store them.

ghost use Rattle.std.specs.Prelude.{◌≡◌, map, replicate, IfOk};
ghost use Rattle.scenario_moves.specs.Moves.{is_present, bytes_of, blank_signature, stored_of};

use data_models::StoredData;
use reload_base::{Bytes, List, NoMemory, TryCopy};
use request_words::{Data, ValueWord};
use std::alloc::Global;
use wire_core::{Signature, SignerIdentity};

fn is_present(value: &Data) -> bool
    ensures { result ≡ is_present value.now }
{
    match value {
        Data::Nonexistent => false,
        Data::Bytes(_) | Data::Fill(_) => true,
    }
}

// So many times the same byte.
fn filled(alloc: Global, byte: u8, count: usize) -> Result<Bytes, NoMemory>
    ensures { IfOk result (λ bytes. bytes ≡ replicate count byte) }
{
    Ok(Bytes::from_vec(vec![in alloc; byte; count]?))
}

fn bytes_of(alloc: Global, value: &Data) -> Result<Bytes, NoMemory>
    ensures { IfOk result (λ bytes. bytes ≡ bytes_of value.now) }
{
    match value {
        Data::Nonexistent => Ok(Bytes::new(alloc)),
        Data::Bytes(bytes) => bytes.copy(alloc),
        Data::Fill(count) => filled(alloc, b'a', *count as usize),
    }
}

// A signature as long as those of the stand-in signer.
#[tactic(auto, unfolding(crate::specs::Moves::blank_signature))]
fn blank_signature(alloc: Global) -> Result<Signature, NoMemory>
    ensures { IfOk result (λ signature. signature ≡ blank_signature) }
{
    Ok(Signature {
        hash: 4,
        algorithm: 224,
        identity: SignerIdentity::CertHash {
            alg: 4,
            hash: filled(alloc, 0, 32)?,
        },
        value: filled(alloc, 0, 32)?,
    })
}

/// The StoredData of a value (RFC 6940, section 7), which its client is still to sign.
#[tactic(auto, unfolding(crate::specs::Moves::stored_of))]
pub fn stored_of(alloc: Global, word: &ValueWord) -> Result<StoredData, NoMemory>
    ensures { IfOk result (λ stored. stored ≡ stored_of word.now) }
{
    Ok(StoredData {
        key: word.key.copy(alloc)?,
        storage_time: word.storage_time,
        lifetime: word.lifetime,
        present: is_present(&word.value),
        value: bytes_of(alloc, &word.value)?,
        signature: blank_signature(alloc)?,
    })
}

/// The StoredData of some values.
pub fn values_of(alloc: Global, words: &[ValueWord]) -> Result<List<StoredData>, NoMemory>
    ensures { IfOk result (λ values. values ≡ map stored_of words.now) }
{
    let mut values = List::new(alloc);
    values.reserve(words.len())?;
    for word in words {
        values.push(stored_of(alloc, word)?)?;
    }
    Ok(values)
}
