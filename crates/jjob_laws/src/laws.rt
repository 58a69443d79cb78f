ghost use Rattle.jjob_laws.specs.StoredJobs.{JobAgain, JobIsSmall};

/// The laws of jobs. A job that is stored with other paths is read as it was, with these paths in the place of those of its class files, in
/// their order; and a job that is read has no more code sources and class files than a job may have. It has no body to run; its contract is
/// the laws.
pub fn job_laws()
    ensures again { JobAgain }
    ensures small { JobIsSmall }
{}
