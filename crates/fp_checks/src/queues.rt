use fp_base::Row;
use fp_queue::{Answer, Call, PlainQueue, Queue, answer_all};
use std::test::Fail;

/// Whether an answer is that of a take, and the item that came back or was taken.
fn told(answer: &Answer<u32>) -> (bool, Option<u32>) {
    match answer {
        Answer::Put(Ok(())) => (false, None),
        Answer::Put(Err(back)) => (false, Some(*back)),
        Answer::Take(taken) => (true, *taken),
    }
}

#[test]
fn the_greatest_and_then_the_earliest_is_taken(rt: HostRuntime) -> Result<(), Fail> {
    let mut queue = Queue::new(rt.alloc(), 3, &[1, 5])?;
    let calls = Vec::from_array(
        rt.alloc(),
        [
            Call::Put {
                priority: 1,
                item: 10u32,
            },
            Call::Put {
                priority: 5,
                item: 20,
            },
            Call::Put {
                priority: 1,
                item: 30,
            },
            Call::Put {
                priority: 5,
                item: 40,
            },
            Call::Take,
            Call::Take,
            Call::Take,
            Call::Take,
        ],
    )?;
    let answers = answer_all(rt.alloc(), &mut queue, Row::from_vec(calls))?;
    let wanted = [
        (false, None),
        (false, None),
        (false, None),
        (false, Some(40)),
        (true, Some(20)),
        (true, Some(10)),
        (true, Some(30)),
        (true, None),
    ];
    assert!(rt; answers.len() == wanted.len());
    for (answer, wanted) in answers.as_slice().iter().zip(wanted) {
        assert_eq!(rt; told(answer), wanted);
    }
    assert!(rt; queue.len() == 0 && !queue.is_full());
    Ok(())
}

#[test]
fn a_plain_queue_answers(rt: HostRuntime) -> Result<(), Fail> {
    let mut queue = PlainQueue::new(rt.alloc(), 1, &[1])?;
    assert_eq!(rt; queue.put(1, 10u32), Ok(()));
    assert!(rt; queue.len() == 1 && queue.is_full());
    assert_eq!(rt; queue.take(), Some(10));
    assert_eq!(rt; queue.take(), None);
    Ok(())
}
