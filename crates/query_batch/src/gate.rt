//! What is called round the jobs of a batch.

/// Is called round each job of a batch, from the thread of the job. It promises only that its calls return.
pub trait Gate: Sync {
    /// Comes before the job with this number, counted from 0, answers its line.
    fn enter(&self, job: usize);

    /// Comes after it.
    fn leave(&self, job: usize);
}

/// The gate that does nothing.
#[derive(Clone, Copy, Debug)]
pub struct Open;

impl Gate for Open {
    fn enter(&self, _job: usize) {}

    fn leave(&self, _job: usize) {}
}
