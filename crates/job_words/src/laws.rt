// Laws of jobs.
ghost use Rattle.job_words.specs.Keys.{JobsDecide};
ghost use Rattle.job_words.specs.FirstWords.{FirstWordsDecide};
ghost use Rattle.job_words.specs.Words.{JobsKeepWords, JobsAreShort};

/// A job that was read keeps the working directory and the words that it was read from.
pub fn jobs_keep_words()
    ensures { JobsKeepWords }
{}

/// A job is read only from a working directory of 1 to 4,096 bytes and at most 1,000 words, each of 1 to 4,096.
pub fn jobs_are_short()
    ensures { JobsAreShort }
{}

/// The first 1,001 compile words decide what a reading gives: a job has at most 1,000.
pub fn first_words_decide()
    ensures { FirstWordsDecide }
{}

/// Jobs are equal by `==` exactly where they are the same.
pub fn equal_jobs_are_same()
    ensures { JobsDecide }
{}
