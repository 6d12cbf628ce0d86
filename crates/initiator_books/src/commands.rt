// An initiator's own commands: each is found by its number, and those that are past are walked over no more.
ghost use Rattle.std.specs.Prelude.{ℕ, ◌≡◌, ◌+◌, ◌≤◌, ◌<◌, ◌||◌, ◌++◌, not, true, false, [], List, Option, map, take, drop, length, slice_set, slice_range, IfOk, IfSome, IfNone};
ghost use Rattle.due_model.specs.Wants.{own_command};
ghost use Rattle.initiator_books.specs.declared.mine.Mine.{Mine};
ghost use Rattle.initiator_books.specs.declared.endings.CommandEnd.{CommandEnd};
ghost use Rattle.bus_base.specs.declared.Event.{Event};
ghost use Rattle.bus_base.specs.declared.Event.TheVariants.{End};
ghost use Rattle.initiator_books.specs.Books.{has_number, is_sense_due};
ghost use Rattle.initiator_books.specs.Commands.{is_past, all_past, all_fresh, are_placed, are_rising, concerns_many, IsPlaceOf};
ghost use Rattle.initiator_books.specs.Endings.{ends_after_events};
ghost use Rattle.initiator_books.specs.Mines.{nothing_sent, mine_of, mines_of, open_mines, mines_since, mine_by, sent_at, over_at, tried_at, mine_after_event};
ghost use Rattle.initiator_books.specs.Openings.{mine_at};
ghost use Rattle.initiator_books.specs.OwnLinks.{named_in};

use crate::marks::{after_end, all_after_event, over_at, sent_at, tried_at};
use crate::mine::Mine;
use bus_base::{Dev, Event, NoMemory, ProcId};
use scenario::CmdDef;
use std::alloc::Global;
use std::marker::Model;

/// An initiator's own commands, in the order of their numbers.
#[derive(Drop)]
pub struct Commands {
    mines: Vec<Mine>,
    // By the number of a command its place among them; of a command of others any place.
    places: Vec<u16>,
    // All before this place are past: nothing comes to them any more.
    past: usize,
    // Nothing has come yet to any from this place on.
    reached: usize,
}

impl Model for Commands {
    ghost use Rattle.std.specs.Prelude.{length};
    ghost use Rattle.initiator_books.specs.Commands.{CommandsValue, AreKept};

    ghost Value = { CommandsValue };

    ghost view = { λ a. record { mines = a.mines.items; limit = length a.places.items } };

    ghost invariant = { λ a. AreKept a.mines.items a.places.items a.past a.reached };
}

// It is over, and so is its automatic REQUEST SENSE, if there is one to come.
fn is_past(mine: &Mine) -> bool
    ensures { result ≡ is_past mine.now }
{
    mine.over && (mine.sense_over || !(mine.checked || mine.sense_sent))
}

// Its automatic REQUEST SENSE is neither sent nor over.
fn needs_sense(mine: &Mine) -> bool
    ensures { result ≡ not (mine.now.sense_sent || mine.now.sense_over) }
{
    !(mine.sense_sent || mine.sense_over)
}

// How many of the first are past once the command at this place has come so far, where so many were.
fn past_with(past: usize, place: usize, mine: &Mine) -> usize
    ensures past { (mines : List Mine) → all_past (take past mines) ≡ true
        → all_past (take result (slice_set mines place mine.now)) ≡ true }
    ensures fewer { result ≤ past }
{
    if is_past(mine) { past } else { past.min(place) }
}

// The first place from this one on, or that of the end, whose command is not past.
fn past_from(mines: &[Mine], past: usize, end: usize) -> usize
    requires past { all_past (take past mines.now) ≡ true }
    requires ordered { past ≤ end }
    requires within { end ≤ length mines.now }
    ensures past { all_past (take result mines.now) ≡ true }
    ensures ordered { result ≤ end }
{
    let mut place = past;
    while place < end && is_past(&mines[place]) {
        place += 1;
    }
    place
}

// Where the command of this number stands, if it is one of these.
fn place_of(mines: &[Mine], places: &[u16], number: u16) -> Option<usize>
    requires { are_placed places.now 0 mines.now ≡ true }
    ensures found { IfSome result (λ p. IsPlaceOf mines.now p number) }
    ensures none { IfNone result (has_number mines.now number ≡ false) }
{
    let number_place = number as usize;
    if number_place >= places.len() {
        return None;
    }
    let place = places[number_place] as usize;
    if place < mines.len() && mines[place].number == number {
        Some(place)
    } else {
        None
    }
}

// Its own among these commands, of which the first has the number 1.
fn own_mines(alloc: Global, commands: &[CmdDef], dev: Dev) -> Result<Vec<Mine>, NoMemory>
    requires { length commands.now < 0xffff }
    ensures { IfOk result (λ made. made.items ≡ mines_of nothing_sent dev commands.now) }
{
    let mut mines = Vec::new(alloc);
    let mut number: u16 = 1;
    for def in commands {
        if def.host == dev {
            mines.push(new_mine(number, def))?;
        }
        number += 1;
    }
    Ok(mines)
}

fn new_mine(number: u16, def: &CmdDef) -> Mine
    ensures { result ≡ mine_of [] (own_command nothing_sent number def.now) }
{
    Mine {
        number,
        host: def.host,
        target: def.target,
        unit: def.unit,
        tag: def.tag,
        at: def.at,
        sent: false,
        over: false,
        checked: false,
        sense_sent: false,
        sense_over: false,
        tries: 0,
    }
}

// The places of these, by their numbers, which rise and are below the limit.
fn places_of(alloc: Global, mines: &[Mine], limit: usize) -> Result<Vec<u16>, NoMemory>
    requires rising { are_rising limit 0 mines.now ≡ true }
    requires few { length mines.now < 0xffff }
    ensures placed { IfOk result (λ made. are_placed made.items 0 mines.now ≡ true) }
    ensures long { IfOk result (λ made. length made.items ≡ limit) }
{
    let mut places = vec![in alloc; 0; limit]?;
    for (place, mine) in mines.iter().enumerate() {
        places[mine.number as usize] = place as u16;
    }
    Ok(places)
}

// An event is shown, to those from one place to another.
fn see_between(mines: &mut [Mine], first: usize, end: usize, event: &Event)
    requires ordered { first ≤ end }
    requires within { end ≤ length mines.old }
    ensures { mines.new ≡ take first mines.old
        ++ (map (λ (m : Mine). mine_after_event event.now m) (slice_range mines.old first end) ++ drop end mines.old) }
{
    all_after_event(&mut mines[first..end], event);
}

impl Commands {
    /// Those of this initiator, before any row. It takes all their memory.
    pub fn new(alloc: Global, commands: &[CmdDef], dev: Dev) -> Result<Commands, NoMemory>
        requires { length commands.now < 0xffff }
        ensures { IfOk result (λ made. made ≡ record {
          mines = mines_of nothing_sent dev commands.now;
          limit = length commands.now + 1;
        }) }
    {
        let mines = own_mines(alloc, commands, dev)?;
        let places = places_of(alloc, mines.as_slice(), commands.len() + 1)?;
        Ok(Commands {
            mines,
            places,
            past: 0,
            reached: 0,
        })
    }

    /// The command of this number among all, if it is one of these; its number is below the limit then.
    pub fn mine(&self, number: u16) -> Option<Mine>
        ensures value { result ≡ mine_at self.now.mines number }
        ensures below { IfSome result (λ m. number < self.now.limit) }
    {
        match place_of(self.mines.as_slice(), self.places.as_slice(), number) {
            None => None,
            Some(place) => Some(self.mines[place]),
        }
    }

    /// Whether the automatic REQUEST SENSE of the command of this number is still to be sent, if it is one of these.
    pub fn is_sense_due(&self, number: u16) -> bool
        ensures { result ≡ is_sense_due self.now.mines number }
    {
        match self.mine(number) {
            None => false,
            Some(mine) => needs_sense(&mine),
        }
    }

    /// Some of them, in their order: no other is open.
    pub fn open(&self) -> &[Mine]
        ensures open { open_mines result.now ≡ open_mines self.now.mines }
        ensures named { (target unit : ℕ) (tag : Option ℕ)
            → named_in result.now target unit tag ≡ named_in self.now.mines target unit tag }
    {
        &self.mines[self.past..self.reached]
    }

    /// Those from a place on, before which all have been sent, or are over.
    pub fn rest(&self) -> &[Mine]
        ensures since { (most : ℕ) (now : List Mine)
            → mines_since most now result.now ≡ mines_since most now self.now.mines }
        ensures first { (most time : ℕ) (now : List Mine)
            → mine_by most time now result.now ≡ mine_by most time now self.now.mines }
    {
        &self.mines[self.past..]
    }

    /// How many of the first of them are past: over, and their automatic REQUEST SENSE too.
    pub fn past(&self) -> usize
        ensures { all_past (take result self.now.mines) ≡ true }
    {
        self.past
    }

    /// Some of those from this place on, in their order: no event ends another of them.
    pub fn from_place(&self, first: usize) -> &[Mine]
        ensures { (v : List CommandEnd) (shown : List Event)
            → ends_after_events result.now v shown ≡ ends_after_events (drop first self.now.mines) v shown }
    {
        if first >= self.reached {
            return &[];
        }
        &self.mines[first..self.reached]
    }

    // That at this place has come so far.
    fn put(&mut self, place: usize, mine: Mine)
        requires { IsPlaceOf self.old.mines place mine.number }
        ensures { self.new ≡ record self.old { mines = slice_set self.old.mines place mine } }
    {
        let past = past_with(self.past, place, &mine);
        self.mines[place] = mine;
        self.reached = self.reached.max(place + 1);
        self.past = past_from(self.mines.as_slice(), past, self.reached);
    }

    /// A process is sent.
    pub fn send(&mut self, id: ProcId)
        ensures { self.new ≡ record self.old { mines = map (λ (m : Mine). sent_at id m) self.old.mines } }
    {
        if let Some(place) = place_of(self.mines.as_slice(), self.places.as_slice(), id.command) {
            let mine = sent_at(id, self.mines[place]);
            self.put(place, mine);
        }
    }

    /// A process is over.
    pub fn give_up(&mut self, id: ProcId)
        ensures { self.new ≡ record self.old { mines = map (λ (m : Mine). over_at id m) self.old.mines } }
    {
        if let Some(place) = place_of(self.mines.as_slice(), self.places.as_slice(), id.command) {
            let mine = over_at(id, self.mines[place]);
            self.put(place, mine);
        }
    }

    /// A command was called for in vain.
    pub fn try_again(&mut self, number: u16)
        ensures { self.new ≡ record self.old { mines = map (λ (m : Mine). tried_at number m) self.old.mines } }
    {
        if let Some(place) = place_of(self.mines.as_slice(), self.places.as_slice(), number) {
            let mine = tried_at(number, self.mines[place]);
            self.put(place, mine);
        }
    }

    // A process ended with this status.
    fn end(&mut self, id: ProcId, status: u8)
        ensures { self.new ≡ record self.old {
          mines = map (λ (m : Mine). mine_after_event (End id status) m) self.old.mines;
        } }
    {
        if let Some(place) = place_of(self.mines.as_slice(), self.places.as_slice(), id.command) {
            let mine = after_end(id, status, self.mines[place]);
            self.put(place, mine);
        }
    }

    // An abort or a reset may end any that is open.
    fn end_many(&mut self, event: &Event)
        requires { concerns_many event.now ≡ true }
        ensures { self.new ≡ record self.old {
          mines = map (λ (m : Mine). mine_after_event event.now m) self.old.mines;
        } }
    {
        see_between(self.mines.as_mut_slice(), self.past, self.reached, event);
        self.past = past_from(self.mines.as_slice(), self.past, self.reached);
    }

    /// An event is shown.
    pub fn see(&mut self, event: &Event)
        ensures { self.new ≡ record self.old {
          mines = map (λ (m : Mine). mine_after_event event.now m) self.old.mines;
        } }
    {
        match *event {
            Event::Accept(_) | Event::Refuse(_) | Event::Run(_) | Event::Fail(_, _) => {}
            Event::End(id, status) => self.end(id, status),
            Event::Lost(id) => self.give_up(id),
            Event::Aborted(..) | Event::Reset(_) => self.end_many(event),
        }
    }
}
