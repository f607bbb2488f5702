// How the time of a job falls.
ghost use Rattle.std.specs.Prelude.{◌≡◌, ◌<◌, length};
ghost use Rattle.restriction.specs.Restriction.{component_of};

// The component of a job, and how its time falls: by `fall` minutes in each `period` passes.
#[derive(Clone, Copy)]
pub struct Pace {
    pub component: u16,
    pub period: u32,
    pub fall: u32,
}

// The component of a job.
pub fn component_of(paces: &[Pace], job: u16) -> u16
    requires { job < length paces.now }
    ensures { result ≡ component_of paces.now job }
{
    paces[usize::from(job)].component
}
