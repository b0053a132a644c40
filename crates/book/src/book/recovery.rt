//! The opening of a book, and its end.
ghost use Rattle.std.specs.Prelude.{◌≡◌, ◌≤◌, None, Err};
ghost use Rattle.heat_plan.specs.declared.token.Token.{Token as token_type};
ghost use Rattle.step_relation.specs.Steps.{engine_limit};
ghost use Rattle.opening_check.specs.declared.finding.Finding.{Finding as finding_type};
ghost use Rattle.book.specs.Kept.{Shown};
ghost use Rattle.book.specs.Openings.{HasOpened, IsUnopened};
ghost use Rattle.book.specs.Starting.{Begins, first_book};

use crate::book::Book;
use crate::opening::{Opened, Start, open_with};
use crate::restarting::Unrestarted;
use provider::Provider;
use record_keeper::Keeper;
use std::alloc::Global;
use std::snapshot::Snapshot;

impl<K: Keeper, P: Provider> Book<K, P> {
    /// Opens a book over a keeper and a cloud, with so many engines. The cloud is asked for its list,
    /// once; it has to agree with what the keeper holds.
    pub fn recover(alloc: Global, keeper: K, cloud: P, workers: u8) -> Opened<K, P>
        requires some { 1 ≤ workers }
        requires few { workers ≤ engine_limit }
        ensures book { (b : Shown K P) → result ≡ Opened.Book b
            → HasOpened (K.may_open keeper) K.shown K.faults P.cloud workers keeper cloud b }
        ensures foreign { (k : K) (p : P) → result ≡ Opened.Foreign k p
            → IsUnopened (K.may_open keeper) workers (K.shown keeper) (K.shown k)
            (K.faults keeper) (K.faults k) (P.cloud cloud) (P.cloud p) Unrestarted.Foreign }
        ensures disagree { (k : K) (p : P) (token : token_type) (finding : finding_type)
            → result ≡ Opened.Disagree k p token finding
            → IsUnopened (K.may_open keeper) workers (K.shown keeper) (K.shown k)
            (K.faults keeper) (K.faults k) (P.cloud cloud) (P.cloud p)
            (Unrestarted.Disagree token finding) }
        ensures disk_fault { (k : K) (p : P) → result ≡ Opened.DiskFault k p
            → IsUnopened (K.may_open keeper) workers (K.shown keeper) (K.shown k)
            (K.faults keeper) (K.faults k) (P.cloud cloud) (P.cloud p) Unrestarted.DiskFault }
        ensures cloud_fault { (k : K) (p : P) → result ≡ Opened.CloudFault k p
            → IsUnopened (K.may_open keeper) workers (K.shown keeper) (K.shown k)
            (K.faults keeper) (K.faults k) (P.cloud cloud) (P.cloud p) Unrestarted.CloudFault }
        ensures worn { (k : K) (p : P) → result ≡ Opened.Worn k p
            → IsUnopened (K.may_open keeper) workers (K.shown keeper) (K.shown k)
            (K.faults keeper) (K.faults k) (P.cloud cloud) (P.cloud p) Unrestarted.Worn }
        ensures memory { (k : K) (p : P) → result ≡ Opened.Memory k p
            → IsUnopened (K.may_open keeper) workers (K.shown keeper) (K.shown k)
            (K.faults keeper) (K.faults k) (P.cloud cloud) (P.cloud p) Unrestarted.Memory }
    {
        let mut keeper = keeper;
        let mut cloud = cloud;
        match open_with(alloc, &mut keeper, &mut cloud, workers) {
            Ok(start) => Opened::Book(Book::begun(alloc, start, keeper, cloud)),
            Err(Unrestarted::Foreign) => Opened::Foreign(keeper, cloud),
            Err(Unrestarted::Disagree(token, finding)) => {
                Opened::Disagree(keeper, cloud, token, finding)
            }
            Err(Unrestarted::DiskFault) => Opened::DiskFault(keeper, cloud),
            Err(Unrestarted::CloudFault) => Opened::CloudFault(keeper, cloud),
            Err(Unrestarted::Worn) => Opened::Worn(keeper, cloud),
            Err(Unrestarted::Memory) => Opened::Memory(keeper, cloud),
        }
    }

    // A book on which nothing has been done.
    fn begun(alloc: Global, start: Start, keeper: K, cloud: P) -> Book<K, P>
        requires { Begins (K.shown keeper) (P.cloud cloud) start }
        ensures { result ≡ first_book start keeper cloud }
    {
        let keeper_then = Snapshot::of(&keeper);
        let cloud_then = Snapshot::of(&cloud);
        let Start {
            opening,
            state,
            entries,
        } = start;
        Book {
            alloc,
            opening,
            state,
            entries,
            keeper,
            cloud,
            keeper_then,
            cloud_then,
            halt: None,
        }
    }

    /// The keeper, and the cloud as the history's calls have left it.
    pub fn give_back(self) -> (K, P)
        ensures { result ≡ (self.keeper, self.cloud) }
    {
        let Book {
            alloc: _,
            opening: _opening,
            state: _state,
            entries: _entries,
            keeper,
            cloud,
            keeper_then: _,
            cloud_then: _,
            halt: _,
        } = self;
        (keeper, cloud)
    }
}
