// The records of all clients, in order of job number. Nothing here takes memory.
ghost use Rattle.std.specs.Prelude.{◌≡◌, ◌+◌, ◌≤◌, ◌++◌, [], None, length, replicate};
ghost use Rattle.std.specs.List.{All};
ghost use Rattle.std.specs.Vec.{vec_len, vec_capacity};
ghost use Rattle.client_order.specs.parts.World.{AllEnded};
ghost use Rattle.client_order.specs.parts.Merged.{in_order, in_places, job_number, records_placed, records_of, AtMostOnce, EachBelow};

use client_steps::Client;
use job_ends::Done;

/// The records of clients that have ended, in order of job number, where there is an empty place for each number and room
/// for the records.
pub fn merge(clients: Vec<Client>, places: Vec<Option<Done>>, records: Vec<Done>) -> Vec<Done>
    requires ended { AllEnded clients.items }
    requires once { AtMostOnce (records_of clients.items) }
    requires below { EachBelow (length places.items) (records_of clients.items) }
    requires empty { places.items ≡ replicate (length places.items) None }
    requires none { records.items ≡ [] }
    requires room { length places.items ≤ vec_capacity records }
    ensures { result.items ≡ in_order job_number 0 (length places.items) (records_of clients.items) }
{
    let mut places = places;
    let mut records = records;
    put_all(clients, &mut places);
    take_out(places, &mut records);
    records
}

// Puts the records of clients that have ended into the places of their numbers.
fn put_all(clients: Vec<Client>, places: &mut [Option<Done>])
    requires ended { AllEnded clients.items }
    requires below { EachBelow (length places.old) (records_of clients.items) }
    ensures { places.new ≡ records_placed (records_of clients.items) places.old }
{
    let mut left = clients.into_iter();
    while let Some(client) = left.next() {
        put(client.into_records(), places);
    }
    left.destroy_empty();
}

// Puts each record into the place of its number.
#[tactic(auto, using(crate::proofs::InOrder::placed_more))]
fn put(records: Vec<Done>, places: &mut [Option<Done>])
    requires below { EachBelow (length places.old) records.items }
    ensures { places.new ≡ records_placed records.items places.old }
{
    for done in records {
        let place = done.job as usize;
        places[place] = Some(done);
    }
}

// Appends what stands in the places.
fn take_out(places: Vec<Option<Done>>, records: &mut Vec<Done>)
    requires room { vec_len records.old + length places.items ≤ vec_capacity records.old }
    ensures { records.new.items ≡ records.old.items ++ in_places places.items }
{
    for place in places {
        if let Some(done) = place {
            records.push_reserved(done);
        }
    }
}
