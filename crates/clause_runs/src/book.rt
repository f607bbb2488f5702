// Books of clauses as this program writes them, apart from the clauses of the library, which it is to check.
use maxatom::Arm;

// A clause: its target, and its arms, which are the first `count` of `arms`.
#[derive(Clone, Copy)]
pub struct Line {
    pub target: u16,
    pub count: usize,
    pub arms: [Arm; 8],
}

impl Line {
    // A clause with no arms yet.
    pub fn new(target: u16) -> Line {
        Line {
            target,
            count: 0,
            arms: [Arm { job: 0, offset: 0 }; 8],
        }
    }

    // Adds an arm, where there are fewer than 8.
    pub fn add(&mut self, arm: Arm) {
        if let Some(place) = self.arms.get_mut(self.count) {
            *place = arm;
            self.count = self.count.saturating_add(1);
        }
    }
}

// The times that its jobs start at, the first `jobs` of 48; the floor; and its clauses, the first `count` of `lines`.
#[derive(Drop)]
pub struct Book {
    pub jobs: usize,
    pub start: [i32; 48],
    pub floor: i32,
    pub count: usize,
    pub lines: [Line; 64],
}

impl Book {
    // A book of jobs that start at zero, with no clauses yet.
    pub fn new(jobs: usize, floor: i32) -> Book {
        Book {
            jobs,
            start: [0; 48],
            floor,
            count: 0,
            lines: [Line::new(0); 64],
        }
    }

    // Adds a clause, where there are fewer than 64.
    pub fn add(&mut self, line: Line) {
        if let Some(place) = self.lines.get_mut(self.count) {
            *place = line;
            self.count = self.count.saturating_add(1);
        }
    }

    // The book of some clauses over two jobs, which start at x and y.
    pub fn small(lines: &[Line], floor: i32, x: i32, y: i32) -> Book {
        let mut book = Book::new(2, floor);
        book.start[0] = x;
        book.start[1] = y;
        for line in lines {
            book.add(*line);
        }
        book
    }
}
