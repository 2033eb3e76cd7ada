//! The topics in a reply to a request for metadata, for `replies`.
ghost use Rattle.std.specs.Prelude.{◌≡◌, Some, map, option_map, IfOk};
ghost use Rattle.kanswer.specs.Answer.{info_as, info_of, infos_of};

use kbytes::{List, NoMemory, copied};
use kwire::{Topic, TopicInfo, codes};
use std::alloc::Global;

// A declared topic.
fn declared(alloc: Global, topic: &Topic) -> Result<TopicInfo, NoMemory>
    ensures { IfOk result (λ info. info ≡ info_as topic.now.name (Some topic.now)) }
{
    Ok(TopicInfo {
        code: codes::NONE,
        name: copied(alloc, topic.name.as_slice())?,
        partitions: topic.partitions,
        followers: topic.followers,
    })
}

// The topic with this name. One that isn't declared has code 3 and no partitions.
fn named(alloc: Global, topics: &[Topic], name: &[u8]) -> Result<TopicInfo, NoMemory>
    ensures { IfOk result (λ info. info ≡ info_of topics.now name.now) }
{
    for topic in topics {
        if topic.name.as_slice() == name {
            return declared(alloc, topic);
        }
    }
    Ok(TopicInfo {
        code: codes::UNKNOWN_TOPIC_OR_PARTITION,
        name: copied(alloc, name)?,
        partitions: 0,
        followers: 0,
    })
}

fn all_declared(alloc: Global, topics: &[Topic]) -> Result<List<TopicInfo>, NoMemory>
    ensures { IfOk result (λ infos. infos ≡ map (λ topic. info_as topic.name (Some topic)) topics.now) }
{
    let mut infos = List::new(alloc);
    for topic in topics {
        infos.push(declared(alloc, topic)?)?;
    }
    Ok(infos)
}

fn all_named(alloc: Global, topics: &[Topic], names: &[&[u8]]) -> Result<List<TopicInfo>, NoMemory>
    ensures { IfOk result (λ infos. infos ≡ map (info_of topics.now) (map (λ name. name.now) names.now)) }
{
    let mut infos = List::new(alloc);
    for name in names {
        infos.push(named(alloc, topics, name)?)?;
    }
    Ok(infos)
}

/// The named topics, or all that are declared.
pub fn described(
    alloc: Global,
    topics: &[Topic],
    names: &Option<List<&[u8]>>,
) -> Result<List<TopicInfo>, NoMemory>
    ensures { IfOk result (λ infos. infos ≡ infos_of topics.now (option_map (map (λ name. name.now)) names.now)) }
{
    match names {
        None => all_declared(alloc, topics),
        Some(names) => all_named(alloc, topics, names.as_slice()),
    }
}
