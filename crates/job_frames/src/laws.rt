// Laws of spellings.
ghost use Rattle.job_frames.specs.Laws.{RequestsAreRead, RequestsAreSpelled, RequestsAreApart, RequestsAreWhole, RequestsMakeTrees, TreesMakeRequests, TreesMayBeWritten, RepliesAreRead, RepliesAreSpelled, RepliesAreApart, OthersAreNoReplies, RepliesHaveEnds, ImagesAreRead, ImagesAreSpelled, ImagesAreApart, RequestsHaveSmallBodies, RequestsAreFirm, RequestsHaveReasons};

use job_words::jobs_keep_words;
use tree_model::judging_makes_trees;

/// Requests and their spellings, both ways: a request is read from its spelling, whatever follows; what reads as a
/// request is its spelling; and no request has two spellings, nor does one spelling begin another. A verdict on the bytes so
/// far stays, whatever follows, and bytes are refused by the reasons 2 to 8.
pub fn request_spellings()
    ensures read { RequestsAreRead }
    ensures spelled { RequestsAreSpelled }
    ensures apart { RequestsAreApart }
    ensures whole { RequestsAreWhole }
    ensures firm { RequestsAreFirm }
    ensures reasons { RequestsHaveReasons }
{
    jobs_keep_words();
}

/// A request's entries make a tree, and its files have at most 16,777,216 bytes each. A job and the entries of a tree,
/// within the limits, may be written, and are a request where their spelling has at most 268,435,456 bytes.
pub fn request_trees()
    ensures trees { RequestsMakeTrees }
    ensures bodies { RequestsHaveSmallBodies }
    ensures requests { TreesMakeRequests }
    ensures written { TreesMayBeWritten }
{
    judging_makes_trees();
}

/// Images and their spellings, both ways, as for requests.
pub fn image_spellings()
    ensures read { ImagesAreRead }
    ensures spelled { ImagesAreSpelled }
    ensures apart { ImagesAreApart }
{}

/// Replies and their spellings, both ways, as for requests.
pub fn reply_spellings()
    ensures read { RepliesAreRead }
    ensures spelled { RepliesAreSpelled }
    ensures apart { RepliesAreApart }
{}

/// What isn't a whole reply has no spelling, and bytes that are longer than every reply begin none.
pub fn replies_have_ends()
    ensures whole { OthersAreNoReplies }
    ensures long { RepliesHaveEnds }
{}
