//! A Book step by step, with answers worked out by hand.

ghost use Rattle.std.specs.Prelude.{◌≡◌, ◌≤◌};
ghost use Rattle.tick_core.specs.Standing.{IsKnown};

use crate::{Book, Claim, CloseFault, Done, Job, JoinFault, NotYet, Packet, Packets};
use conference_spec::JoinSpec;
use g726_bits::{Frame, Rate};
use std::test::Fail;
use talk_mix::{Tick, choose};

/// What is done to a Book.
#[derive(Clone, Copy)]
enum Step {
    /// A listener comes, whose packets carry so many ticks.
    Join(u32, Rate, u8),
    Leave(u32),
    Close,
    Claim,
    /// Runs and publishes the job of this number.
    Publish(u64),
    /// Gives the job of this number back.
    GiveBack(u64),
    /// Claims, runs and publishes until nothing waits.
    Run,
    Collect,
    Cut,
    Rests,
    End,
}

/// What a Book answered.
#[derive(Clone, Copy, Debug, PartialEq, Eq)]
enum Answer {
    Ok,
    Used,
    Full,
    Absent,
    TicksOver,
    Long,
    Backlog,
    Memory,
    /// A job of this number was claimed.
    Job(u64),
    Idle,
    Over,
    /// The job or its result came back, or there was none of that number.
    Back,
    /// So many packets, each of so many octets FF.
    Silence(usize, usize),
    /// Packets of which one isn't silent.
    Voices(usize),
    NotYet,
    /// So many jobs were run.
    Runs(u64),
    /// So many packets are left, the last one of so many octets.
    Left(usize, usize),
    /// It may not be asked.
    Barred,
}

fn spec(member: u32, rate: Rate, ticks: u8) -> JoinSpec
    ensures payload_type { result.pt ≤ 127 }
    ensures ticks { result.ticks ≡ ticks }
{
    JoinSpec {
        member,
        rate,
        pt: 97,
        ssrc: 10,
        first_seq: 0,
        first_stamp: 0,
        ticks,
    }
}

fn join(book: &mut Book, member: u32, rate: Rate, ticks: u8) -> Answer
    requires { IsKnown book.old }
    ensures { IsKnown book.new }
{
    if book.ended() || ticks == 0 || ticks > 4 {
        return Answer::Barred;
    }
    match book.join(spec(member, rate, ticks)) {
        Ok(()) => Answer::Ok,
        Err(JoinFault::Used) => Answer::Used,
        Err(JoinFault::Full) => Answer::Full,
        Err(JoinFault::Memory) => Answer::Memory,
    }
}

fn leave(book: &mut Book, member: u32) -> Answer
    requires { IsKnown book.old }
    ensures { IsKnown book.new }
{
    if book.ended() {
        return Answer::Barred;
    }
    match book.leave(member) {
        Ok(()) => Answer::Ok,
        Err(_) => Answer::Absent,
    }
}

fn close(book: &mut Book, tick: Tick) -> Answer
    requires { IsKnown book.old }
    ensures { IsKnown book.new }
{
    if book.ended() {
        return Answer::Barred;
    }
    match book.close(tick) {
        Ok(()) => Answer::Ok,
        Err(CloseFault::TicksOver) => Answer::TicksOver,
        Err(CloseFault::Long) => Answer::Long,
        Err(CloseFault::Backlog) => Answer::Backlog,
        Err(CloseFault::Memory) => Answer::Memory,
    }
}

/// The job of this number, if it is there.
fn take_job(jobs: &mut Vec<Job>, number: u64) -> Option<Job> {
    for at in 0..jobs.len() {
        if jobs[at].number() == number {
            return Some(jobs.swap_remove(at));
        }
    }
    None
}

/// A claim, after which as much is known of the Book.
fn claim_one(book: &mut Book) -> Claim
    requires known { IsKnown book.old }
    ensures known { IsKnown book.new }
{
    book.claim()
}

/// A publication, after which as much is known of the Book.
fn publish_one(book: &mut Book, done: Done) -> bool
    requires known { IsKnown book.old }
    ensures known { IsKnown book.new }
{
    book.publish(done).is_ok()
}

/// A job given back, after which as much is known of the Book.
fn give_one(book: &mut Book, job: Job) -> bool
    requires known { IsKnown book.old }
    ensures known { IsKnown book.new }
{
    book.give_back(job).is_ok()
}

fn claim(book: &mut Book, jobs: &mut Vec<Job>) -> Answer
    requires { IsKnown book.old }
    ensures { IsKnown book.new }
{
    match claim_one(book) {
        Claim::Job(job) => {
            let number = job.number();
            match jobs.push(job) {
                Ok(()) => Answer::Job(number),
                Err(_) => Answer::Memory,
            }
        }
        Claim::Idle => Answer::Idle,
        Claim::Over => Answer::Over,
    }
}

fn publish(book: &mut Book, jobs: &mut Vec<Job>, number: u64) -> Answer
    requires { IsKnown book.old }
    ensures { IsKnown book.new }
{
    let Some(job) = take_job(jobs, number) else {
        return Answer::Back;
    };
    if publish_one(book, job.run()) {
        Answer::Ok
    } else {
        Answer::Back
    }
}

fn give_back(book: &mut Book, jobs: &mut Vec<Job>, number: u64) -> Answer
    requires { IsKnown book.old }
    ensures { IsKnown book.new }
{
    let Some(job) = take_job(jobs, number) else {
        return Answer::Back;
    };
    if give_one(book, job) {
        Answer::Ok
    } else {
        Answer::Back
    }
}

/// Whether a run was made.
fn run_one(book: &mut Book) -> bool
    requires { IsKnown book.old }
    ensures { IsKnown book.new }
{
    match claim_one(book) {
        Claim::Job(job) => publish_one(book, job.run()),
        Claim::Idle | Claim::Over => false,
    }
}

fn run(book: &mut Book) -> u64
    requires { IsKnown book.old }
    ensures { IsKnown book.new }
{
    for runs in 0..100u64 {
        if !run_one(book) {
            return runs;
        }
    }
    100
}

/// How many packets there are, and whether each is of as many octets FF.
fn judged(packets: &Packets) -> Answer {
    let mut size = 0;
    for i in 0..packets.len() {
        let payload = packets.packet(i).payload;
        let octets = payload.as_slice();
        size = octets.len();
        if !octets.iter().all(|octet| *octet == 255) {
            return Answer::Voices(packets.len());
        }
    }
    Answer::Silence(packets.len(), size)
}

fn collect(book: &mut Book) -> Answer
    requires { IsKnown book.old }
    ensures { IsKnown book.new }
{
    match book.collect() {
        Ok(packets) => judged(&packets),
        Err(_) => Answer::NotYet,
    }
}

fn cut(book: &mut Book) -> Answer
    requires { IsKnown book.old }
    ensures { IsKnown book.new }
{
    if book.closed() != book.collected() || book.kept() == 0 || book.ended() {
        return Answer::Barred;
    }
    book.cut();
    Answer::Ok
}

/// What is left once all is collected.
fn rests(book: &Book) -> Answer
    requires { IsKnown book.now }
{
    if book.closed() != book.collected() {
        return Answer::Barred;
    }
    let rests = book.rests();
    let mut size = 0;
    for i in 0..rests {
        size = book.rest(i).payload.as_slice().len();
    }
    Answer::Left(rests, size)
}

fn end(book: &mut Book) -> Answer
    requires { IsKnown book.old }
    ensures { IsKnown book.new }
{
    book.end();
    Answer::Ok
}

fn act(book: &mut Book, jobs: &mut Vec<Job>, step: Step) -> Answer
    requires { IsKnown book.old }
    ensures { IsKnown book.new }
{
    match step {
        Step::Join(member, rate, ticks) => join(book, member, rate, ticks),
        Step::Leave(member) => leave(book, member),
        Step::Close => close(book, Tick::empty()),
        Step::Claim => claim(book, jobs),
        Step::Publish(number) => publish(book, jobs, number),
        Step::GiveBack(number) => give_back(book, jobs, number),
        Step::Run => Answer::Runs(run(book)),
        Step::Collect => collect(book),
        Step::Cut => cut(book),
        Step::Rests => rests(book),
        Step::End => end(book),
    }
}

/// The first step that isn't answered as it should be.
fn differs(book: &mut Book, jobs: &mut Vec<Job>, rows: &[(Step, Answer)]) -> Option<usize>
    requires { IsKnown book.old }
    ensures { IsKnown book.new }
{
    for at in 0..rows.len() {
        let (step, answer) = rows[at];
        if act(book, jobs, step) != answer {
            return Some(at);
        }
    }
    None
}

/// How many of so many members may join.
fn joins(book: &mut Book, members: u32) -> u32
    requires { IsKnown book.old }
    ensures { IsKnown book.new }
{
    for member in 0..members {
        if join(book, member, Rate::R32, 1) != Answer::Ok {
            return member;
        }
    }
    members
}

/// How many of so many ticks may be closed.
fn closes(book: &mut Book, ticks: u32) -> u32
    requires { IsKnown book.old }
    ensures { IsKnown book.new }
{
    for tick in 0..ticks {
        if close(book, Tick::empty()) != Answer::Ok {
            return tick;
        }
    }
    ticks
}

/// How many of so many ticks without a listener may be closed and collected.
fn quiet_ticks(book: &mut Book, ticks: u32) -> u32
    requires { IsKnown book.old }
    ensures { IsKnown book.new }
{
    for tick in 0..ticks {
        if close(book, Tick::empty()) != Answer::Ok || collect(book) != Answer::Silence(0, 0) {
            return tick;
        }
    }
    ticks
}

/// A listener leaves while its job is out: its run is kept for the tick that it was there at, and the next has no packet.
#[test]
fn leaver_whose_job_is_out(rt: HostRuntime) -> Result<(), Fail> {
    let mut book = Book::new(rt.alloc());
    let mut jobs = Vec::new(rt.alloc());
    let rows = [
        (Step::Join(1, Rate::R24, 1), Answer::Ok),
        (Step::Close, Answer::Ok),
        (Step::Claim, Answer::Job(1)),
        (Step::Leave(1), Answer::Ok),
        (Step::Close, Answer::Ok),
        (Step::Publish(1), Answer::Ok),
        (Step::Collect, Answer::Silence(1, 60)),
        (Step::Collect, Answer::Silence(0, 0)),
        (Step::Collect, Answer::NotYet),
    ];
    assert_eq!(rt; differs(&mut book, &mut jobs, &rows), None);
    assert_eq!(rt; (book.issued(), book.waiting()), (1, 0));
    Ok(())
}

/// A run is held while the ticks behind it go on; whoever waited for it then takes the results that are there.
#[test]
fn held_run(rt: HostRuntime) -> Result<(), Fail> {
    let mut book = Book::new(rt.alloc());
    let mut jobs = Vec::new(rt.alloc());
    let rows = [
        (Step::Join(1, Rate::R24, 1), Answer::Ok),
        (Step::Close, Answer::Ok),
        (Step::Claim, Answer::Job(1)),
        (Step::Publish(1), Answer::Ok),
        (Step::Join(2, Rate::R24, 1), Answer::Ok),
        (Step::Close, Answer::Ok),
        (Step::Close, Answer::Ok),
        (Step::Close, Answer::Ok),
        (Step::Claim, Answer::Job(2)),
        (Step::Claim, Answer::Job(3)),
        (Step::Publish(2), Answer::Ok),
        (Step::Claim, Answer::Job(4)),
        (Step::Publish(4), Answer::Ok),
        (Step::Claim, Answer::Job(5)),
        (Step::Publish(5), Answer::Ok),
        (Step::Claim, Answer::Idle),
        (Step::Publish(3), Answer::Ok),
        (Step::Claim, Answer::Idle),
        (Step::Collect, Answer::Silence(1, 60)),
        (Step::Collect, Answer::Silence(2, 60)),
        (Step::Collect, Answer::Silence(2, 60)),
        (Step::Collect, Answer::Silence(2, 60)),
    ];
    assert_eq!(rt; differs(&mut book, &mut jobs, &rows), None);
    assert_eq!(rt; (book.issued(), book.waiting()), (5, 0));
    Ok(())
}

/// What no full packet carries is left at the end, and is read as often as it is asked for; a tick more fills the packet.
#[test]
fn packet_that_is_left(rt: HostRuntime) -> Result<(), Fail> {
    let mut book = Book::new(rt.alloc());
    let mut jobs = Vec::new(rt.alloc());
    let rows = [
        (Step::Join(1, Rate::R24, 2), Answer::Ok),
        (Step::Close, Answer::Ok),
        (Step::Rests, Answer::Barred),
        (Step::Run, Answer::Runs(1)),
        (Step::Collect, Answer::Silence(0, 0)),
        (Step::Rests, Answer::Left(1, 60)),
        (Step::Rests, Answer::Left(1, 60)),
        (Step::Close, Answer::Ok),
        (Step::Run, Answer::Runs(1)),
        (Step::Collect, Answer::Silence(1, 120)),
        (Step::Rests, Answer::Left(0, 0)),
    ];
    assert_eq!(rt; differs(&mut book, &mut jobs, &rows), None);
    Ok(())
}

/// Packets of four ticks beside those of one: the leaver's last one is shorter, and goes out with the tick that it left in.
#[test]
fn packets_of_four_and_of_one(rt: HostRuntime) -> Result<(), Fail> {
    let mut book = Book::new(rt.alloc());
    let mut jobs = Vec::new(rt.alloc());
    let rows = [
        (Step::Join(1, Rate::R32, 4), Answer::Ok),
        (Step::Join(2, Rate::R24, 1), Answer::Ok),
        (Step::Close, Answer::Ok),
        (Step::Close, Answer::Ok),
        (Step::Close, Answer::Ok),
        (Step::Close, Answer::Ok),
        (Step::Close, Answer::Ok),
        (Step::Leave(2), Answer::Ok),
        (Step::Leave(1), Answer::Ok),
        (Step::Join(3, Rate::R32, 2), Answer::Ok),
        (Step::Close, Answer::Ok),
        (Step::Run, Answer::Runs(11)),
        (Step::Collect, Answer::Silence(1, 60)),
        (Step::Collect, Answer::Silence(1, 60)),
        (Step::Collect, Answer::Silence(1, 60)),
        (Step::Collect, Answer::Silence(2, 60)),
        (Step::Collect, Answer::Silence(1, 60)),
        (Step::Collect, Answer::Silence(1, 80)),
        (Step::Rests, Answer::Left(1, 80)),
    ];
    assert_eq!(rt; differs(&mut book, &mut jobs, &rows), None);
    Ok(())
}

/// Bundles go on over a cut: the leaver's last packet still goes out, and what was pending is in the next full one. Who
/// joined before the cut can't join again.
#[test]
fn packets_over_a_cut(rt: HostRuntime) -> Result<(), Fail> {
    let mut book = Book::new(rt.alloc());
    let mut jobs = Vec::new(rt.alloc());
    let rows = [
        (Step::Join(1, Rate::R24, 3), Answer::Ok),
        (Step::Join(2, Rate::R24, 2), Answer::Ok),
        (Step::Cut, Answer::Barred),
        (Step::Close, Answer::Ok),
        (Step::Cut, Answer::Barred),
        (Step::Run, Answer::Runs(1)),
        (Step::Collect, Answer::Silence(0, 0)),
        (Step::Leave(2), Answer::Ok),
        (Step::Cut, Answer::Ok),
        (Step::Cut, Answer::Barred),
        (Step::Rests, Answer::Left(2, 60)),
        (Step::Join(2, Rate::R24, 1), Answer::Used),
        (Step::Leave(2), Answer::Absent),
        (Step::Close, Answer::Ok),
        (Step::Run, Answer::Runs(1)),
        (Step::Collect, Answer::Silence(1, 60)),
        (Step::Close, Answer::Ok),
        (Step::Run, Answer::Runs(1)),
        (Step::Collect, Answer::Silence(1, 180)),
        (Step::Rests, Answer::Left(0, 0)),
    ];
    assert_eq!(rt; differs(&mut book, &mut jobs, &rows), None);
    assert_eq!(rt;
        (book.fed(), book.closed(), book.kept(), book.issued()),
        (10, 3, 2, 3)
    );
    Ok(())
}

/// After 18,000 ticks none is closed until a cut is made.
#[test]
fn long(rt: HostRuntime) -> Result<(), Fail> {
    let mut book = Book::new(rt.alloc());
    assert_eq!(rt; quiet_ticks(&mut book, 18_001), 18_000);
    assert_eq!(rt; close(&mut book, Tick::empty()), Answer::Long);
    assert_eq!(rt; cut(&mut book), Answer::Ok);
    assert_eq!(rt; close(&mut book, Tick::empty()), Answer::Ok);
    assert_eq!(rt; (book.kept(), book.closed()), (1, 18_001));
    Ok(())
}

/// Refusals, and what comes after the end.
#[test]
fn refusals(rt: HostRuntime) -> Result<(), Fail> {
    let mut book = Book::new(rt.alloc());
    let mut jobs = Vec::new(rt.alloc());
    let rows = [
        (Step::Join(1, Rate::R24, 1), Answer::Ok),
        (Step::Join(1, Rate::R24, 1), Answer::Used),
        (Step::Leave(2), Answer::Absent),
        (Step::Collect, Answer::NotYet),
        (Step::Claim, Answer::Idle),
        (Step::Close, Answer::Ok),
        (Step::Claim, Answer::Job(1)),
        (Step::Claim, Answer::Idle),
        (Step::GiveBack(1), Answer::Ok),
        (Step::GiveBack(1), Answer::Back),
        (Step::Claim, Answer::Job(1)),
        (Step::Publish(1), Answer::Ok),
        (Step::End, Answer::Ok),
        (Step::End, Answer::Ok),
        (Step::Claim, Answer::Over),
        (Step::Collect, Answer::Silence(1, 60)),
        (Step::Collect, Answer::NotYet),
    ];
    assert_eq!(rt; differs(&mut book, &mut jobs, &rows), None);
    Ok(())
}

/// How many runs a tick has: one for each different rate, state and mix.
#[test]
fn runs_of_a_tick(rt: HostRuntime) -> Result<(), Fail> {
    for (rate, runs, size) in [(Rate::R24, 1, 60), (Rate::R40, 2, 0)] {
        let mut book = Book::new(rt.alloc());
        let mut jobs = Vec::new(rt.alloc());
        let rows = [
            (Step::Join(1, Rate::R24, 1), Answer::Ok),
            (Step::Close, Answer::Ok),
            (Step::Run, Answer::Runs(1)),
            (Step::Collect, Answer::Silence(1, 60)),
            (Step::Join(2, rate, 1), Answer::Ok),
            (Step::Close, Answer::Ok),
            (Step::Run, Answer::Runs(2)),
            (Step::Close, Answer::Ok),
            (Step::Run, Answer::Runs(runs)),
        ];
        assert_eq!(rt; differs(&mut book, &mut jobs, &rows), None);
        let wanted = Answer::Silence(2, if size == 0 { 100 } else { size });
        assert_eq!(rt; act(&mut book, &mut jobs, Step::Collect), wanted);
        assert_eq!(rt; book.issued(), 3 + runs);
    }
    Ok(())
}

/// With 1,024 listeners nobody joins; with 64 ticks to collect none is closed until one is collected.
#[test]
fn full_and_backlog(rt: HostRuntime) -> Result<(), Fail> {
    let mut book = Book::new(rt.alloc());
    assert_eq!(rt; joins(&mut book, 1025), 1024);
    assert_eq!(rt; join(&mut book, 1024, Rate::R16, 1), Answer::Full);
    let mut late = Book::new(rt.alloc());
    assert_eq!(rt; join(&mut late, 1, Rate::R24, 1), Answer::Ok);
    assert_eq!(rt; closes(&mut late, 65), 64);
    assert_eq!(rt; close(&mut late, Tick::empty()), Answer::Backlog);
    assert_eq!(rt; run(&mut late), 64);
    assert_eq!(rt; collect(&mut late), Answer::Silence(1, 60));
    assert_eq!(rt; close(&mut late, Tick::empty()), Answer::Ok);
    Ok(())
}

fn first_octet(packet: &Packet) -> u8 {
    match packet.payload.as_slice().first() {
        Some(octet) => *octet,
        None => 0,
    }
}

/// A collect, after which as much is known of the Book.
fn collect_one(book: &mut Book) -> Result<Packets, NotYet>
    requires known { IsKnown book.old }
    ensures known { IsKnown book.new }
{
    book.collect()
}

/// How many jobs were run for a tick that is closed with these talkers, and the low half of each packet's first octet.
fn heard(book: &mut Book, tick: Tick) -> (u64, [u8; 5])
    requires { IsKnown book.old }
    ensures { IsKnown book.new }
{
    let mut firsts = [0; 5];
    let _ = close(book, tick);
    let runs = run(book);
    if let Ok(packets) = collect_one(book) {
        for (i, first) in firsts.iter_mut().enumerate() {
            if i < packets.len() {
                *first = first_octet(&packets.packet(i)) % 16;
            }
        }
    }
    (runs, firsts)
}

/// One of five listeners talks in the fourth tick: it is sent silence, and the four others share one run.
#[test]
fn one_talker(rt: HostRuntime) -> Result<(), Fail> {
    let mut book = Book::new(rt.alloc());
    assert_eq!(rt; joins(&mut book, 5), 5);
    let voice = Frame::of(&[8031; 160]).ok_or("no frame")?;
    let silence = [(1, [15; 5]); 3];
    let before = [
        heard(&mut book, Tick::empty()),
        heard(&mut book, Tick::empty()),
        heard(&mut book, Tick::empty()),
    ];
    assert!(rt; before == silence);
    assert!(rt; heard(&mut book, choose(&[(0, voice)])) == (2, [15, 7, 7, 7, 7]));
    assert_eq!(rt; book.issued(), 5);
    Ok(())
}

/// What listeners hear is the same where the Book was cut.
#[test]
fn voices_over_a_cut(rt: HostRuntime) -> Result<(), Fail> {
    let mut book = Book::new(rt.alloc());
    let mut other = Book::new(rt.alloc());
    assert_eq!(rt; (joins(&mut book, 5), joins(&mut other, 5)), (5, 5));
    let voice = Frame::of(&[8031; 160]).ok_or("no frame")?;
    let tick = choose(&[(0, voice)]);
    for at in 0..6u32 {
        let same = heard(&mut book, tick) == heard(&mut other, tick);
        assert!(rt; same, "tick {at}");
        assert_eq!(rt; cut(&mut book), Answer::Ok);
    }
    Ok(())
}

/// A Book whose first job is out.
fn first_job(book: &mut Book, rate: Rate) -> Option<Job>
    requires { IsKnown book.old }
    ensures { IsKnown book.new }
{
    let _ = join(book, 1, rate, 1);
    let _ = close(book, Tick::empty());
    match claim_one(book) {
        Claim::Job(job) => Some(job),
        Claim::Idle | Claim::Over => None,
    }
}

/// A result of another Book is taken where number, tick and triple are those of a run that is out, and once.
#[test]
fn results_of_other_books(rt: HostRuntime) -> Result<(), Fail> {
    let mut one = Book::new(rt.alloc());
    let mut like = Book::new(rt.alloc());
    let mut other = Book::new(rt.alloc());
    let own = first_job(&mut one, Rate::R24).ok_or("no job")?;
    let alike = first_job(&mut like, Rate::R24).ok_or("no job")?;
    let strange = first_job(&mut other, Rate::R32).ok_or("no job")?;
    assert!(rt; !publish_one(&mut one, strange.run()));
    assert!(rt; publish_one(&mut one, own.run()));
    assert!(rt; !publish_one(&mut one, alike.run()));
    assert_eq!(rt; (one.issued(), one.waiting()), (1, 0));
    assert_eq!(rt; collect(&mut one), Answer::Silence(1, 60));
    Ok(())
}

/// A job is given back once, and is claimed again with its number.
#[test]
fn jobs_of_other_books(rt: HostRuntime) -> Result<(), Fail> {
    let mut one = Book::new(rt.alloc());
    let mut like = Book::new(rt.alloc());
    let own = first_job(&mut one, Rate::R24).ok_or("no job")?;
    let alike = first_job(&mut like, Rate::R24).ok_or("no job")?;
    assert!(rt; give_one(&mut one, own));
    assert!(rt; !give_one(&mut one, alike));
    let mut jobs = Vec::new(rt.alloc());
    assert_eq!(rt; claim(&mut one, &mut jobs), Answer::Job(1));
    Ok(())
}
