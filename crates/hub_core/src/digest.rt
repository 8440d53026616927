// The digest that a submission shares with what repeats it.
ghost use Rattle.std.specs.Prelude.{◌≡◌, [], fold, option_copied};
ghost use Rattle.hub_core.specs.Repeats.{path_octets, chained, digest_under, digest_of};

use mail_names::Key;
use mail_submission::{Origin, Submission};
use sha2::{Digest, Sha256};

// The digest of a digest and one part more.
fn chained(digest: &[u8], part: &[u8]) -> [u8; 32]
    ensures { result ≡ chained digest.now part.now }
{
    let mut hasher = Sha256::new();
    hasher.update(digest);
    hasher.update(part);
    hasher.finalize()
}

fn chained_keys(digest: [u8; 32], keys: &[Key]) -> [u8; 32]
    ensures { result ≡ fold chained digest keys.now }
{
    let mut digest = digest;
    for key in keys {
        digest = chained(&digest, key.bytes());
    }
    digest
}

fn path_digest(path: Option<&Key>) -> [u8; 32]
    ensures { result ≡ chained [] (path_octets (option_copied path.entry)) }
{
    match path {
        None => chained(&[], &[]),
        Some(key) => chained(&[], key.bytes()),
    }
}

// The digest of the reverse path, the recipients, a mark and the message.
fn digest_under(mark: &[u8], submission: &Submission) -> [u8; 32]
    ensures { result ≡ digest_under mark.now submission.now }
{
    let path = path_digest(submission.reverse());
    let envelope = chained_keys(path, submission.recipients());
    let marked = chained(&envelope, mark);
    chained(&marked, submission.bytes())
}

/// The SHA-256 digest that a submission shares with what repeats it, if something can.
///
/// Its parts are chained, so that a digest tells where one ends and the next begins.
pub fn digest_of(submission: &Submission) -> Option<[u8; 32]>
    ensures { result ≡ digest_of submission.now }
{
    if submission.has_message_id() {
        return Some(digest_under(&[], submission));
    }
    match submission.origin() {
        Origin::Smtp => None,
        Origin::Pickup { mark } => Some(digest_under(mark.as_slice(), submission)),
    }
}
