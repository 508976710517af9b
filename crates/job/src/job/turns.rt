// The turns that change what a job's book says.
ghost use Rattle.std.specs.Prelude.{◌≡◌, ◌≤◌, replicate};
ghost use Rattle.book.specs.Books.{opened_book, within};
ghost use Rattle.book.specs.Events.{done, fresh};
ghost use Rattle.book.specs.Turns.{opening, enter_quantity, enter_mask, take_out, give_back, scrap, exchange, held_out};
ghost use Rattle.job.specs.Jobs.{book_of, state_of, Done, Gave, Spent, Swapped, Found, Serving, Released};

use super::{Job, Returned, Ticket};
use arrayvec::ArrayVec;
use book::{JobFault, Outcome};
use limit_search::Step;
use records::{MOST_NOZZLES, MOST_TYPES, TypeRecord};
use sheets::NozzleState;

// A table of so many times one item.
fn filled<T: Copy + Default, const CAP: usize>(item: T, count: u8) -> ArrayVec<T, CAP>
    requires { count ≤ CAP }
    ensures { result.items ≡ replicate count item }
{
    ArrayVec::try_from(&[item; CAP][..usize::from(count)]).unwrap()
}

// Where a number from 1 to `count` stands in its table, or the fault.
fn place_in(number: u8, count: usize, fault: JobFault) -> Result<usize, JobFault>
    ensures { Found (within number count) number fault result }
{
    let number = usize::from(number);
    if !(1..=count).contains(&number) {
        return Err(fault);
    }
    Ok(number - 1)
}

impl Job {
    /// A place for a job: job 0 as it is opened with one type and one nozzle.
    pub fn blank() -> Job
        ensures { state_of result ≡ fresh (opened_book 0 1 1) }
    {
        Job {
            number: 0,
            types: filled(TypeRecord::default(), 1),
            nozzles: filled(NozzleState::InService, 1),
            outcome: Outcome::None,
            flow: [0; 256],
            trail: [Step::default(); 9],
        }
    }

    /// Opens a job in this place: nothing is entered, and all nozzles are in service.
    pub fn open(&mut self, number: u32, types: u8, nozzles: u8) -> Result<(), JobFault>
        ensures { Done self.old (opening number types nozzles) result self.new }
    {
        if !(1..=MOST_TYPES).contains(&types) || !(1..=MOST_NOZZLES).contains(&nozzles) {
            return Err(JobFault::BadSize);
        }
        self.number = number;
        self.types = filled(TypeRecord::default(), types);
        self.nozzles = filled(NozzleState::InService, nozzles);
        self.outcome = Outcome::None;
        Ok(())
    }

    /// Enters how many pieces of a type are placed.
    pub fn enter_quantity(&mut self, kind: u8, quantity: u32) -> Result<(), JobFault>
        ensures { Done self.old (enter_quantity kind quantity) result self.new }
    {
        let place = place_in(kind, self.types.len(), JobFault::NoSuchType { kind })?;
        let quantity = u16::try_from(quantity).map_err(|_| JobFault::TooLarge { kind })?;
        self.types[place].quantity = Some(quantity);
        self.outcome = Outcome::None;
        Ok(())
    }

    /// Enters which nozzles may take a type, and how many pieces of it one nozzle may take at most.
    pub fn enter_mask(&mut self, kind: u8, mask: u8, limit: Option<u32>) -> Result<(), JobFault>
        ensures { Done self.old (enter_mask kind mask limit) result self.new }
    {
        let place = place_in(kind, self.types.len(), JobFault::NoSuchType { kind })?;
        if u16::from(mask) >= 1 << self.nozzles.len() {
            return Err(JobFault::TooLarge { kind });
        }
        let limit = limit
            .map(u16::try_from)
            .transpose()
            .map_err(|_| JobFault::TooLarge { kind })?;
        let record = &mut self.types[place];
        record.mask = Some(mask);
        record.limit = limit;
        self.outcome = Outcome::None;
        Ok(())
    }

    // Where a nozzle in service stands in the table.
    fn serving_place(&self, nozzle: u8) -> Result<usize, JobFault>
        ensures { Serving self.now nozzle result }
    {
        let place = place_in(
            nozzle,
            self.nozzles.len(),
            JobFault::NoSuchNozzle { nozzle },
        )?;
        if self.nozzles[place] != NozzleState::InService {
            return Err(JobFault::NotInService { nozzle });
        }
        Ok(place)
    }

    // The ticket for a nozzle of this job.
    fn ticket_for(&self, nozzle: u8) -> Ticket
        ensures { result ≡ record { job = self.now.number; nozzle = nozzle } }
    {
        Ticket {
            job: self.number,
            nozzle,
        }
    }

    /// Takes a nozzle out of service, against a ticket.
    pub fn take_out(&mut self, nozzle: u8) -> Result<Ticket, JobFault>
        ensures { Gave self.old (take_out nozzle) result self.new }
    {
        let place = self.serving_place(nozzle)?;
        self.nozzles[place] = NozzleState::Out;
        self.outcome = Outcome::None;
        Ok(self.ticket_for(nozzle))
    }

    // Whether a ticket is of this job, and its nozzle is out here.
    fn holds(&self, ticket: &Ticket) -> bool
        ensures { result ≡ held_out (book_of self.now) ticket.now.job ticket.now.nozzle }
    {
        let number = usize::from(ticket.nozzle);
        ticket.job == self.number
            && (1..=self.nozzles.len()).contains(&number)
            && self.nozzles[number - 1] == NozzleState::Out
    }

    // Uses a ticket up whose nozzle is out here, and says where that nozzle stands in the table. A
    // refusal hands the ticket back.
    fn release(&self, ticket: Ticket) -> Result<usize, Returned>
        ensures { Released self.now ticket result }
    {
        if !self.holds(&ticket) {
            return Err(Returned {
                fault: JobFault::NotOut {
                    nozzle: ticket.nozzle,
                },
                ticket,
            });
        }
        let Ticket { job: _, nozzle } = ticket;
        Ok(usize::from(nozzle) - 1)
    }

    /// Returns the ticket's nozzle to service. A refusal hands the ticket back.
    pub fn give_back(&mut self, ticket: Ticket) -> Result<(), Returned>
        ensures { Spent self.old (give_back ticket.job ticket.nozzle) ticket result self.new }
    {
        let place = self.release(ticket)?;
        self.nozzles[place] = NozzleState::InService;
        self.outcome = Outcome::None;
        Ok(())
    }

    /// Scraps the ticket's nozzle for good; a plan in force stays. A refusal hands the ticket back.
    pub fn scrap(&mut self, ticket: Ticket) -> Result<(), Returned>
        ensures { Spent self.old (scrap ticket.job ticket.nozzle) ticket result self.new }
    {
        let place = self.release(ticket)?;
        self.nozzles[place] = NozzleState::Scrapped;
        Ok(())
    }

    /// Gives the ticket's nozzle back and takes another out, against a new ticket. A refusal hands
    /// the ticket back.
    pub fn exchange(&mut self, ticket: Ticket, nozzle: u8) -> Result<Ticket, Returned>
        ensures { Swapped self.old (exchange ticket.job ticket.nozzle nozzle) ticket result self.new }
    {
        let place = match self.serving_place(nozzle) {
            Ok(place) => place,
            Err(fault) => return Err(Returned { fault, ticket }),
        };
        let own = self.release(ticket)?;
        self.nozzles[own] = NozzleState::InService;
        self.nozzles[place] = NozzleState::Out;
        self.outcome = Outcome::None;
        Ok(self.ticket_for(nozzle))
    }
}
